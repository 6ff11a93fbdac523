// Locutus pages by number: the slots in use, in their order.
ghost use Rattle.std.specs.Prelude.{◌≡◌};
ghost use Rattle.layout.specs.Code.Survey.{numbered_of};

use places::SLOTS;

// The Locutus page of each slot in use, the slot of each page, and how many pages there are.
#[derive(Clone, Copy)]
pub(crate) struct Numbered {
    pub page: [u16; SLOTS],
    pub slot: [u16; SLOTS],
    pub pages: u16,
}

// A slot in use takes the next page, and the page its slot.
pub(crate) fn number(used: &[bool; SLOTS]) -> Numbered
    ensures { result ≡ numbered_of used.now }
{
    let mut page = [0u16; SLOTS];
    let mut slot = [0u16; SLOTS];
    let mut n: u16 = 0;
    for s in 0..SLOTS {
        page[s] = n;
        if used[s] {
            slot[usize::from(n)] = s as u16;
            n += 1;
        }
    }
    Numbered {
        page,
        slot,
        pages: n,
    }
}

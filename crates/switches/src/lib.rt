// What a write asks of a cartridge's tables, and what they become: page flips (01, "The machine") and bankswitches (02, W-202). No word of the cartridge.
#![tactic(auto)]

ghost use Rattle.std.specs.Prelude.{◌≡◌, ◌+◌, ◌/◌, ◌≤◌};
ghost use Rattle.places.specs.Limits.{paragraphs};
ghost use Rattle.switches.specs.Flips.{active, asks, acts, first_k, flip_from, flip_size, flipped};
ghost use Rattle.switches.specs.Banks.{half_page_paragraphs, register_at, banked, number_from, switched};

use places::{CHAPTER_PAGES, CHAPTER_PARAGRAPHS, Console, FLIP_ENTRIES, PARAGRAPHS};

// The paragraphs of a half-page.
pub const HALF_PAGE_PARAGRAPHS: usize = 8;

// Returns the flip entry that a write asks for: $xA5y to $xFFF asks for entry 16x + y.
pub fn asked(at: Console, value: u16) -> Option<u8>
    ensures { result ≡ asks at value }
{
    let a = at.0 as usize;
    let v = value as usize;
    if a % 0x1000 == 0xFFF && v / 0x1000 == a / 0x1000 && v / 16 % 256 == 0xA5 {
        Some((v / 0x1000 * CHAPTER_PAGES + v % CHAPTER_PAGES) as u8)
    } else {
        None
    }
}

// Entry n acts by its PFE bit, and never in chapters 0 and 1.
pub fn acts(flips: &[u16; FLIP_ENTRIES], n: u8) -> bool
    ensures { result ≡ acts flips.now n }
{
    let i = n as usize;
    flips[i] / 8 % 2 == 1 && 2 <= i / CHAPTER_PAGES
}

// The first paragraph of a chapter that a flip changes: in chapter 4 the lower half, the ECS RAM, stays.
pub fn first_k(x: usize) -> usize
    ensures { (result ≡ first_k x) × (result ≤ 8) }
{
    if x == 4 { 8 } else { 0 }
}

// The first paragraph that flip entry n changes, and how many they are.
pub fn flip_from(n: u8) -> usize
    ensures { (result ≡ flip_from n) × (result + flip_size n ≤ paragraphs) }
{
    let x = n as usize / CHAPTER_PAGES;
    CHAPTER_PARAGRAPHS * x + first_k(x)
}

pub fn flip_size(n: u8) -> u8
    ensures { result ≡ flip_size n }
{
    (CHAPTER_PARAGRAPHS - first_k(n as usize / CHAPTER_PAGES)) as u8
}

// Flip entry n acts on the lent tables: each paragraph k of its chapter that a flip changes takes its mapping and its permissions. Returns how many
// entries of each table it has assigned.
pub fn flip(
    mapping: &mut [u16; PARAGRAPHS],
    permissions: &mut [u8; PARAGRAPHS],
    flips: &[u16; FLIP_ENTRIES],
    n: u8,
) -> u8
    ensures { (result ≡ flip_size n) × (mapping.new ≡ (flipped flips.now n (active mapping.old permissions.old)).mapping)
        × (permissions.new ≡ (flipped flips.now n (active mapping.old permissions.old)).permissions) }
{
    let i = n as usize;
    let entry = flips[i];
    let x = i / CHAPTER_PAGES;
    for k in first_k(x)..CHAPTER_PARAGRAPHS {
        mapping[CHAPTER_PARAGRAPHS * x + k] = entry / 16 * 16 + k as u16;
        permissions[CHAPTER_PARAGRAPHS * x + k] = (entry % 8) as u8;
    }
    flip_size(n)
}

// Returns the first paragraph of the half-page whose bankswitch register an address is: $0040-$004F is the register of half-page $x000-$x7FF and
// $0050-$005F that of $x800-$xFFF, x being the low digit.
pub fn register_at(at: Console) -> Option<u8>
    ensures { result ≡ register_at at }
{
    let a = at.0 as usize;
    let first = CHAPTER_PARAGRAPHS * (a % 0x10);
    match a / 0x10 {
        4 => Some(first as u8),
        5 => Some((first + HALF_PAGE_PARAGRAPHS) as u8),
        _ => None,
    }
}

// A half-page may be switched by the BANKSW bit of its first paragraph p.
pub fn banked(permissions: &[u8; PARAGRAPHS], p: u8) -> bool
    ensures { result ≡ banked permissions.now p }
{
    let i = p as usize;
    permissions[i] / 8 % 2 == 1
}

// Paragraph j behind number v, going round from 255 to 0.
fn number_from(v: u8, j: u8) -> u16
    ensures { result ≡ number_from v j }
{
    u16::from(v.wrapping_add(j))
}

// The eight paragraphs of paragraph p's half-page take number v and the seven after it; it answers how many entries it has assigned.
pub fn bankswitch(mapping: &mut [u16; PARAGRAPHS], p: u8, v: u8) -> u8
    ensures { (result ≡ half_page_paragraphs) × (mapping.new ≡ switched (p / half_page_paragraphs) v mapping.old) }
{
    let h = p as usize / HALF_PAGE_PARAGRAPHS;
    for j in 0..HALF_PAGE_PARAGRAPHS {
        mapping[HALF_PAGE_PARAGRAPHS * h + j] = number_from(v, j as u8);
    }
    HALF_PAGE_PARAGRAPHS as u8
}

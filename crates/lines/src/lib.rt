// A line of a CFG that claims words, as every crate above the reader names it (01, "What a CFG may say"): what it says, the
// addresses that it names, its layer and its kind.
#![tactic(auto)]

ghost use Rattle.std.specs.Prelude.{◌+◌, ◌-◌, ◌≤◌, ◌≡◌};
ghost use Rattle.places.specs.Places.{console};
ghost use Rattle.lines.specs.Lines.{first, last, holds, layer};
ghost use Rattle.lines.specs.Kinds.{kind_by};

use places::{BinWord, Console, Page};

// RAM 16 or RAM 8.
#[derive(Clone, Copy)]
pub enum Width {
    Sixteen,
    Eight,
}

// What a line says: BIN words lo to hi at an address and on, on every page or on one; or RAM from address lo to hi.
#[derive(Clone, Copy)]
pub enum Entry {
    Rom(BinWord, BinWord, Console),
    Paged(BinWord, BinWord, Console, Page),
    Ram(Console, Console, Width),
}

// An entry and the number of the CFG line that it stands on.
#[derive(Clone, Copy)]
pub struct Line {
    pub source: u32,
    pub entry: Entry,
}

// The last address that BIN words lo to hi take from an address on: a number, as it may lie past $FFFF.
fn reach(lo: BinWord, hi: BinWord, at: Console) -> usize
    ensures { result ≡ at.0 + (hi.0 - lo.0) }
{
    usize::from(at.0) + hi.0.saturating_sub(lo.0) as usize
}

// The first and the last address that an entry names; whether it holds an address.
pub fn first_of(e: Entry) -> Console
    ensures { result ≡ console (first e) }
{
    match e {
        Entry::Rom(_, _, at) | Entry::Paged(_, _, at, _) => at,
        Entry::Ram(lo, _, _) => lo,
    }
}

pub fn last_of(e: Entry) -> usize
    ensures { result ≡ last e }
{
    match e {
        Entry::Rom(lo, hi, at) | Entry::Paged(lo, hi, at, _) => reach(lo, hi, at),
        Entry::Ram(_, hi, _) => usize::from(hi.0),
    }
}

#[tactic(auto, unfolding(crate::specs::Lines::holds))]
pub fn holds(e: Entry, a: Console) -> bool
    ensures { result ≡ holds e a.0 }
{
    first_of(e).0 <= a.0 && usize::from(a.0) <= last_of(e)
}

// 0 of a plain entry, 1 + y of one of page y.
pub fn layer_of(e: Entry) -> usize
    ensures { (result ≡ layer e) × (result ≤ 256) }
{
    match e {
        Entry::Rom(_, _, _) | Entry::Ram(_, _, _) => 0,
        Entry::Paged(_, _, _, y) => usize::from(y.0) + 1,
    }
}

// The kind of the words that an entry declares, by the permission that shows them.
pub fn kind_of(e: Entry) -> u8
    ensures { result ≡ kind_by e }
{
    match e {
        Entry::Rom(_, _, _) | Entry::Paged(_, _, _, _) => 1,
        Entry::Ram(_, _, Width::Sixteen) => 3,
        Entry::Ram(_, _, Width::Eight) => 7,
    }
}

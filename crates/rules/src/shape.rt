// Rules 25 and 26 of one line: its range, and its shape (01, "What a CFG may say").
ghost use Rattle.std.specs.Prelude.{◌-◌, ◌≡◌};
ghost use Rattle.basics.specs.Refusals.{first_refusal, passed};
ghost use Rattle.rules.specs.Rules.{backwards, past_bin, out_of_range, meets, touches_silent, plain_shape, whole_page, half_page, page_shape, misshapen, not_allowed, rows_of};

use basics::{Refusal, refuse};
use lines::{Entry, Line, first_of, last_of, layer_of};
use places::{CHAPTER_PAGES, CHAPTER_SIZE, HALF_SIZE, HALF_START, PARAGRAPH_SIZE};

// 25: lo above hi; hi past a BIN of so many words; and addresses past $FFFF.
fn is_backwards(e: Entry) -> bool
    ensures { result ≡ backwards e }
{
    match e {
        Entry::Rom(lo, hi, _) | Entry::Paged(lo, hi, _, _) => hi.0 < lo.0,
        Entry::Ram(lo, hi, _) => hi.0 < lo.0,
    }
}

fn past_bin(words: u32, e: Entry) -> bool
    ensures { result ≡ past_bin words e }
{
    match e {
        Entry::Rom(_, hi, _) | Entry::Paged(_, hi, _, _) => words <= hi.0,
        Entry::Ram(_, _, _) => false,
    }
}

fn out_of_range(words: u32, e: Entry) -> bool
    ensures { result ≡ out_of_range words e }
{
    is_backwards(e) || past_bin(words, e) || 0xFFFF < last_of(e)
}

// Words a to b and words c to d have a word in common.
fn meet(a: usize, b: usize, c: usize, d: usize) -> bool
    ensures { result ≡ meets a b c d }
{
    a <= d && c <= b
}

#[tactic(auto, unfolding(crate::specs::Rules::touches_silent))]
fn touches_silent(a: usize, b: usize) -> bool
    ensures { result ≡ touches_silent a b }
{
    meet(a, b, 0, 0x4FF) || meet(a, b, 0x1000, 0x1FFF) || meet(a, b, 0x3000, 0x3FFF)
}

#[tactic(auto, unfolding(crate::specs::Rules::plain_shape))]
fn plain_shape(a: usize, b: usize) -> bool
    ensures { result ≡ plain_shape a b }
{
    a % PARAGRAPH_SIZE == 0 && b % PARAGRAPH_SIZE == PARAGRAPH_SIZE - 1 && !touches_silent(a, b)
}

fn whole_page(a: usize, b: usize) -> bool
    ensures { result ≡ whole_page a b }
{
    let x = a / CHAPTER_SIZE;
    b.saturating_sub(a) == CHAPTER_SIZE - 1 && a % CHAPTER_SIZE == 0 && (x == 2 || 5 <= x)
}

fn half_page(a: usize, b: usize) -> bool
    ensures { result ≡ half_page a b }
{
    b.saturating_sub(a) == HALF_SIZE - 1 && a == HALF_START
}

#[tactic(auto, unfolding(crate::specs::Rules::page_shape))]
fn page_shape(a: usize, b: usize) -> bool
    ensures { result ≡ page_shape a b }
{
    whole_page(a, b) || half_page(a, b)
}

// 26.
fn is_misshapen(e: Entry) -> bool
    ensures { result ≡ misshapen e }
{
    let a = usize::from(first_of(e).0);
    let b = last_of(e);
    let t = layer_of(e);
    if t == 0 {
        return !plain_shape(a, b);
    }
    CHAPTER_PAGES < t || !page_shape(a, b)
}

fn not_allowed(l: Line) -> bool
    ensures { result ≡ not_allowed l }
{
    l.source == 0 || is_misshapen(l.entry)
}

// 25, then 26.
pub(crate) fn fault_of(words: u32, l: Line) -> Result<(), Refusal>
    ensures { result ≡ passed (first_refusal (rows_of words l)) }
{
    if out_of_range(words, l.entry) {
        return Err(refuse(25, l.source as usize));
    }
    if not_allowed(l) {
        return Err(refuse(26, l.source as usize));
    }
    Ok(())
}

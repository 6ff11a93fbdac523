// Bytes and words as numbers, and refusals: the leaves that every crate above calls.
#![tactic(auto)]

ghost use Rattle.std.specs.Prelude.{◌/◌, ◌%◌, ◌<◌, ◌≤◌, min, ◌≡◌, ◌&&◌, ◌||◌, length, get_or};
ghost use Rattle.basics.specs.Bytes.{at16, bytes16};
ghost use Rattle.basics.specs.Lists.{put_front};
ghost use Rattle.basics.specs.Refusals.{refuse, no_refusal, declined};

// A refusal: a number of 01's table, and its place. It is the error of every function that may refuse.
#[derive(Clone, Copy, PartialEq, Eq)]
pub struct Refusal {
    pub number: u32,
    pub place: usize,
}

// The refusal of a function that writes into a lent buffer, and the length that it needs there: 0 but at 29.
#[derive(Clone, Copy, PartialEq, Eq)]
pub struct Declined {
    pub refusal: Refusal,
    pub length: usize,
}

impl From<Refusal> for Declined {
    ghost from_gives = { λ r d. d ≡ declined r 0 };

    fn from(refusal: Refusal) -> Declined {
        Declined { refusal, length: 0 }
    }
}

pub fn refuse(number: u32, place: usize) -> Refusal
    ensures { result ≡ refuse number place }
{
    Refusal { number, place }
}

pub fn no_refusal() -> Refusal
    ensures { result ≡ no_refusal }
{
    refuse(0, 0)
}

// A byte as a number of another width.
pub fn wide(x: u8) -> usize
    ensures { (result ≡ x) × (result < 256) }
{
    x as usize
}

pub fn wide16(x: u8) -> u16
    ensures { (result ≡ x) × (result < 256) }
{
    x as u16
}

// The two bytes of a word.
pub fn low(w: u16) -> u8
    ensures { result ≡ w % 256 }
{
    (w % 256) as u8
}

pub fn high(w: u16) -> u8
    ensures { result ≡ w / 256 }
{
    (w / 256) as u8
}

// The byte at a place; 0 past the end, as in the definitions.
pub fn byte_at(s: &[u8], at: usize) -> u8
    ensures { result ≡ get_or s.now at 0 }
{
    s.get(at).copied().unwrap_or(0)
}

// The word at a place, its lower byte first; 0 for what lies past the end.
pub fn word_at(s: &[u8], at: usize) -> u16
    ensures { result ≡ at16 s.now at }
{
    if s.len() <= at {
        return 0;
    }
    u16::from_le_bytes([s[at], byte_at(s, at + 1)])
}

pub fn least(a: usize, b: usize) -> usize
    ensures { result ≡ min a b }
{
    if a < b { a } else { b }
}

pub fn both(a: bool, b: bool) -> bool
    ensures { result ≡ (a && b) }
{
    if a { b } else { false }
}

pub fn either(a: bool, b: bool) -> bool
    ensures { result ≡ (a || b) }
{
    if a { true } else { b }
}

// Bytes, and words of two bytes each, at the front of a buffer that has room for them.
pub fn put_bytes(out: &mut [u8], bytes: &[u8])
    ensures { out.new ≡ put_front bytes.now out.old }
{
    if out.len() < bytes.len() {
        return;
    }
    out[..bytes.len()].copy_from_slice(bytes);
}

pub fn put_words(out: &mut [u8], words: &[u16])
    ensures { out.new ≡ put_front (bytes16 words.now) out.old }
{
    if out.len() / 2 < words.len() {
        return;
    }
    for i in 0..words.len() {
        out[2 * i] = low(words[i]);
        out[2 * i + 1] = high(words[i]);
    }
}

// Program metadata: the sub-records of a payload, the n-th text with a tag, single-value tags given twice, and the release date
// (001, "Block Type 0x03: Program Metadata").
#![tactic(auto)]

ghost use Rattle.std.specs.Prelude.{◌≡◌};
ghost use Rattle.metadata.specs.Records.{stands_at, is_cut};
ghost use Rattle.metadata.specs.Texts.{texts_of, seek_in, is_single, given_twice};
ghost use Rattle.metadata.specs.Dates.{given_of, date_of};

use basics::byte_at;

// The bytes before a text: its tag and its length.
pub const HEAD_SIZE: usize = 2;

// The tags that 001 names are 0x00 to 0x0F; the first two have a single value.
pub const LAST_TAG: u8 = 0x0F;

pub const NAME_TAG: u8 = 0x00;

pub const SHORT_NAME_TAG: u8 = 0x01;

// Where a text stands: from its first byte up to the place behind its last.
#[derive(Clone, Copy)]
pub struct Span {
    pub from: usize,
    pub to: usize,
}

// What stands at a place of a payload: its end, a sub-record that is cut, or one with its tag and its text. These are three outcomes,
// and each caller has another use for the cut: an error or a None would name it no plainer.
#[derive(Clone, Copy)]
pub enum Stands {
    End,
    Cut,
    Text(u8, Span),
}

#[derive(Clone, Copy)]
pub struct ReleaseDate {
    pub year: u16,
    pub month: Option<u8>,
    pub day: Option<u8>,
    pub hour: u8,
    pub minute: u8,
    pub second: u8,
    pub zone_hours: i8,
    pub zone_minutes: u8,
}

// What stands at p.
pub fn record_at(s: &[u8], p: usize) -> Stands
    ensures { result ≡ stands_at s.now p }
{
    if s.len() <= p {
        return Stands::End;
    }
    if s.len() - p < HEAD_SIZE {
        return Stands::Cut;
    }
    let from = p + HEAD_SIZE;
    let size = usize::from(s[p + 1]);
    if s.len() - from < size {
        return Stands::Cut;
    }
    Stands::Text(
        s[p],
        Span {
            from,
            to: from + size,
        },
    )
}

// Whether a payload is cut inside a sub-record.
pub fn is_cut(s: &[u8]) -> bool
    ensures { result ≡ is_cut s.now }
{
    let mut p = 0;
    loop {
        match record_at(s, p) {
            Stands::End => return false,
            Stands::Cut => return true,
            Stands::Text(_, text) => p = text.to,
        }
    }
}

// The n-th text with the tag, from 1; the error is how many are still to be passed where they are fewer.
pub fn seek(s: &[u8], tag: u8, n: usize) -> Result<Span, usize>
    ensures { result ≡ seek_in n (texts_of tag s.now) }
{
    if n == 0 || LAST_TAG < tag {
        return Err(n);
    }
    let mut p = 0;
    let mut left = n;
    while let Stands::Text(t, text) = record_at(s, p) {
        if t == tag {
            left -= 1;
            if left == 0 {
                return Ok(text);
            }
        }
        p = text.to;
    }
    Err(left)
}

// Whether a tag has a single value.
pub fn is_single(tag: u8) -> bool
    ensures { result ≡ is_single tag }
{
    tag == NAME_TAG || tag == SHORT_NAME_TAG
}

// Whether a payload gives a single-value tag twice.
pub fn is_twice(s: &[u8], tag: u8) -> bool
    ensures { result ≡ given_twice tag (texts_of tag s.now) }
{
    is_single(tag) && seek(s, tag, 2).is_ok()
}

fn given_of(b: u8) -> Option<u8>
    ensures { result ≡ given_of b }
{
    if b == 0 {
        return None;
    }
    Some(b)
}

// The date that a text gives; bytes that it lacks are 0, and those past the eighth are not looked at.
pub fn date_of(text: &[u8]) -> ReleaseDate
    ensures { result ≡ date_of text.now }
{
    ReleaseDate {
        year: 1900 + u16::from(byte_at(text, 0)),
        month: given_of(byte_at(text, 1)),
        day: given_of(byte_at(text, 2)),
        hour: byte_at(text, 3),
        minute: byte_at(text, 4),
        second: byte_at(text, 5),
        zone_hours: byte_at(text, 6).cast_signed(),
        zone_minutes: byte_at(text, 7),
    }
}

// The fields of a record, each at its place. Past the record's end every byte is 0, so no read can fail: a record that
// is cut differs in its answers, or in where it ends.
ghost use Rattle.std.specs.Prelude.{◌+◌, ◌<◌, ◌≤◌, min, length};

use basics::{byte_at, least, wide};

// The place n bytes after a place.
pub fn after(at: usize, n: usize) -> usize {
    std::num::wrapping_add_usize(at, n)
}

pub fn get8(s: &[u8], at: usize) -> usize {
    wide(byte_at(s, at))
}

pub fn get16(s: &[u8], at: usize) -> usize
    ensures { result < 65536 }
{
    wide(byte_at(s, at)) + 256 * wide(byte_at(s, after(at, 1)))
}

pub fn get32(s: &[u8], at: usize) -> usize
    ensures { result < 4294967296 }
{
    get16(s, at) + 65536 * get16(s, after(at, 2))
}

// Where the record ends that starts at a place: its length's four bytes, and as many as that says; the file's end, where it is cut.
pub fn end_of(file: &[u8], at: usize) -> usize
    ensures { (min (at + 1) (length file.now) ≤ result) × (result ≤ length file.now) }
{
    let from = least(at, file.len());
    from + least(4 + get32(file, from), file.len() - from)
}

// Whether the field k bytes after a place is this number; whether the record ends there.
pub fn has8(s: &[u8], at: usize, k: usize, value: usize) -> bool {
    get8(s, after(at, k)) == value
}

pub fn has32(s: &[u8], at: usize, k: usize, value: usize) -> bool {
    get32(s, after(at, k)) == value
}

pub fn ends(s: &[u8], at: usize, k: usize) -> bool {
    after(at, k) == s.len()
}

// The first n bytes, or words, or all where there are fewer.
pub fn front(s: &[u8], n: usize) -> &[u8] {
    let k = least(n, s.len());
    &s[0..k]
}

pub fn front_words(s: &[u16], n: usize) -> &[u16] {
    let k = least(n, s.len());
    &s[0..k]
}

// All from a place on.
pub fn rest(s: &[u8], at: usize) -> &[u8] {
    let k = least(at, s.len());
    &s[k..]
}

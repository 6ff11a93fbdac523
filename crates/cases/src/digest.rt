// Digests, as the second program makes them: the IEEE CRC32 of bytes, and of words as their bytes, the lower first. Texts are held
// against a record by them too.
use crate::fill::put_at;
use crate::record::{after, ends, front, get16, rest};
use basics::both;
use places::{FLIP_ENTRIES, PARAGRAPHS};
use sums::TABLE_ENTRIES;

pub const ONES: u32 = 0xFFFF_FFFF;

// The digest of a sum from ONES on.
pub fn ended(sum: u32) -> usize {
    wide32(sum ^ ONES)
}

fn wide32(x: u32) -> usize {
    x as usize
}

pub fn digest(ieee: &[u32; TABLE_ENTRIES], s: &[u8]) -> usize {
    ended(sums::sum_by(ieee, ONES, s))
}

// A count, and so many bytes that are these; with them the record ends.
pub fn text_ends(rec: &[u8], at: usize, ieee: &[u32; TABLE_ENTRIES], text: &[u8]) -> bool {
    let from = after(at, 2);
    let n = text.len();
    let same = digest(ieee, text) == digest(ieee, rest(rec, from));
    both(same, both(n == get16(rec, at), ends(rec, from, n)))
}

// Words as bytes; answers how many bytes.
fn pack(words: &[u16], out: &mut [u8]) -> usize {
    let mut i = 0;
    while i < words.len() {
        let w = words[i];
        put_at(out, 2 * i, basics::low(w));
        put_at(out, 2 * i + 1, basics::high(w));
        i += 1;
    }
    2 * i
}

fn sum_words(ieee: &[u32; TABLE_ENTRIES], c: u32, words: &[u16], scratch: &mut [u8]) -> u32 {
    let n = pack(words, scratch);
    sums::sum_by(ieee, c, front(scratch, n))
}

pub fn digest_words(ieee: &[u32; TABLE_ENTRIES], words: &[u16], scratch: &mut [u8]) -> usize {
    ended(sum_words(ieee, ONES, words, scratch))
}

// The tables, as a tables block has them.
pub fn digest_tables<'a>(
    ieee: &[u32; TABLE_ENTRIES],
    mapping: &'a [u16; PARAGRAPHS],
    permissions: &'a [u8; PARAGRAPHS],
    flips: &'a [u16; FLIP_ENTRIES],
    scratch: &mut [u8],
) -> usize {
    let m = sum_words(ieee, ONES, mapping, scratch);
    let p = sums::sum_by(ieee, m, permissions);
    ended(sum_words(ieee, p, flips, scratch))
}

// What a record has its inputs made of: bytes and words from a generator's seed, and runs of them laid over; and text put into a buffer.
ghost use Rattle.std.specs.Prelude.{◌≤◌};

use crate::record::{after, get16, get32};
use basics::{byte_at, least};

// How many bytes or words were made, and the place of the record's next field.
#[derive(Clone, Copy)]
pub struct Taken {
    pub n: usize,
    pub next: usize,
}

// The generator: 32-bit xorshift.
fn step(x: u32) -> u32 {
    let a = x ^ (x << 13);
    let b = a ^ (a >> 17);
    b ^ (b << 5)
}

pub fn fill_bytes(out: &mut [u8], base: u8, seed: u32) {
    let mut x = seed;
    let mut i = 0;
    while i < out.len() {
        x = step(x);
        out[i] = (x % 256) as u8 ^ base;
        i += 1;
    }
}

pub fn fill_words(out: &mut [u16], seed: u32) {
    let mut x = seed;
    let mut i = 0;
    while i < out.len() {
        x = step(x);
        out[i] = (x % 65536) as u16;
        i += 1;
    }
}

// A byte at a place, where there is room.
pub fn put_at(out: &mut [u8], at: usize, b: u8) {
    if at < out.len() {
        out[at] = b;
    }
}

// Bytes of s from `at` on, as many as `count`, into `out` from `to` on.
pub fn lay(s: &[u8], at: usize, count: usize, out: &mut [u8], to: usize) {
    let mut i = 0;
    while i < count {
        put_at(out, after(to, i), byte_at(s, after(at, i)));
        i += 1;
    }
}

// Text into `out` from `at` on; answers the place after it.
pub fn put(out: &mut [u8], at: usize, text: &[u8]) -> usize {
    lay(text, 0, text.len(), out, at);
    after(at, text.len())
}

// A number's digits at the back of a buffer, which has room for those of any; answers where they start.
fn decimal(n: u64, out: &mut [u8; 20]) -> usize
    ensures { result ≤ 20 }
{
    let mut rest = n;
    let mut i = 20;
    while 0 < i {
        i -= 1;
        out[i] = b'0' + (rest % 10) as u8;
        rest /= 10;
        if rest == 0 {
            return i;
        }
    }
    i
}

// A line NAME=VALUE, the name with its sign; answers the place after it.
pub fn put_line(out: &mut [u8], at: usize, name: &[u8], value: usize) -> usize {
    let mut digits = [0u8; 20];
    let k = decimal(value as u64, &mut digits);
    let p = put(out, at, name);
    let q = put(out, p, &digits[k..]);
    put(out, q, b"\n")
}

// The runs of a fill; answers the place after them.
fn lay_runs(rec: &[u8], at: usize, out: &mut [u8]) -> usize {
    let runs = get16(rec, at);
    let mut p = after(at, 2);
    let mut i = 0;
    while i < runs {
        let count = get16(rec, after(p, 4));
        let bytes = after(p, 6);
        lay(rec, bytes, count, out, get32(rec, p));
        p = after(bytes, count);
        i += 1;
    }
    p
}

// A word at a place, where there is room.
fn put_word_at(out: &mut [u16], at: usize, w: u16) {
    if at < out.len() {
        out[at] = w;
    }
}

// Words of s from `at` on, as many as `count`, into `out` from `to` on.
fn lay_words(s: &[u8], at: usize, count: usize, out: &mut [u16], to: usize) {
    let mut p = at;
    let mut i = 0;
    while i < count {
        put_word_at(out, after(to, i), get16(s, p) as u16);
        p = after(p, 2);
        i += 1;
    }
}

// Runs of words laid over a RAM; answers the place after them.
fn lay_word_runs(rec: &[u8], at: usize, out: &mut [u16]) -> usize {
    let runs = get16(rec, at);
    let mut p = after(at, 2);
    let mut i = 0;
    while i < runs {
        let count = get16(rec, after(p, 4));
        let words = after(p, 6);
        lay_words(rec, words, count, out, get32(rec, p));
        p = after(after(words, count), count);
        i += 1;
    }
    p
}

// A fill: its length, base, seed and runs.
pub fn take_bytes(rec: &[u8], at: usize, out: &mut [u8]) -> Taken {
    let n = least(get32(rec, at), out.len());
    let base = byte_at(rec, after(at, 4));
    let seed = get32(rec, after(at, 5)) as u32;
    fill_bytes(&mut out[0..n], base, seed);
    let next = lay_runs(rec, after(at, 9), out);
    Taken { n, next }
}

// Words, or a buffer's bytes: a length and a seed.
pub fn take_words(rec: &[u8], at: usize, out: &mut [u16]) -> Taken {
    let n = least(get32(rec, at), out.len());
    let seed = get32(rec, after(at, 4)) as u32;
    fill_words(&mut out[0..n], seed);
    Taken {
        n,
        next: after(at, 8),
    }
}

// Words with runs laid over them.
pub fn take_laid(rec: &[u8], at: usize, out: &mut [u16]) -> Taken {
    let w = take_words(rec, at, out);
    let next = lay_word_runs(rec, w.next, out);
    Taken { n: w.n, next }
}

// Words that stand as a fill of bytes, the lower byte of each first; the bytes are made in a room of their own.
pub fn take_packed(rec: &[u8], at: usize, room: &mut [u8], out: &mut [u16]) -> Taken {
    let f = take_bytes(rec, at, room);
    let n = f.n / 2;
    lay_words(room, 0, n, out, 0);
    Taken { n, next: f.next }
}

pub fn take_buffer(rec: &[u8], at: usize, out: &mut [u8]) -> Taken {
    let n = least(get32(rec, at), out.len());
    let seed = get32(rec, after(at, 4)) as u32;
    fill_bytes(&mut out[0..n], 0, seed);
    Taken {
        n,
        next: after(at, 8),
    }
}

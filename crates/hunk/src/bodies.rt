// The words of a data block before its last, as they are written: bytes, packets of decles, 16-bit words
// (001, "8-bit", "10-bit" and "16-bit Data Block").
ghost use Rattle.std.specs.Prelude.{◌+◌, ◌-◌, ◌*◌, ◌/◌, ◌%◌, ◌≤◌, ◌<◌, ◌≡◌, length, get_or, drop};
ghost use Rattle.basics.specs.Lists.{laid};
ghost use Rattle.hunk.specs.Forms.{lower, packet, packets, body_for};

use crate::Form;
use basics::{low, put_words};

// The lower byte of each word from i on.
fn put_lower(out: &mut [u8], p: usize, words: &[u16], i: usize)
    requires { (i ≤ length words.now) × (p + (length words.now - i) ≤ length out.old) }
    ensures { out.new ≡ laid p (length words.now - i) (lower (drop i words.now)) out.old }
{
    let n = words.len() - i;
    for j in 0..n {
        out[p + j] = low(words[i + j]);
    }
}

// Two upper bits of each of four decles, the first decle's highest.
fn uppers_of(a: u16, b: u16, c: u16, d: u16) -> u8
    ensures { result ≡ 64 * (a / 256 % 4) + 16 * (b / 256 % 4) + 4 * (c / 256 % 4) + d / 256 % 4 }
{
    (64 * (a / 256 % 4) + 16 * (b / 256 % 4) + 4 * (c / 256 % 4) + d / 256 % 4) as u8
}

// A whole packet, of the four words from i on.
fn put_packet(out: &mut [u8], p: usize, words: &[u16], i: usize)
    requires { (p + 5 ≤ length out.old) × (i + 4 ≤ length words.now) }
    ensures { out.new ≡ laid p 5 (packet words.now i) out.old }
{
    let a = words[i];
    let b = words[i + 1];
    let c = words[i + 2];
    let d = words[i + 3];
    out[p] = uppers_of(a, b, c, d);
    out[p + 1] = low(a);
    out[p + 2] = low(b);
    out[p + 3] = low(c);
    out[p + 4] = low(d);
}

// The first k packets, all whole.
fn put_packets(out: &mut [u8], words: &[u16], k: usize)
    requires { (5 * k ≤ length out.old) × (4 * k ≤ length words.now) }
    ensures { out.new ≡ laid 0 (5 * k) (packets words.now) out.old }
{
    for j in 0..k {
        put_packet(out, 5 * j, words, 4 * j);
    }
}

// A word, and 0 past the last.
fn word_or_none(words: &[u16], i: usize) -> u16
    ensures { result ≡ get_or words.now i 0 }
{
    words.get(i).copied().unwrap_or(0)
}

// The short packet of the words from i on, of which there are one to three.
fn put_short(out: &mut [u8], p: usize, words: &[u16], i: usize)
    requires { (i < length words.now) × (p + 1 + (length words.now - i) ≤ length out.old) }
    ensures { out.new ≡ laid p (1 + (length words.now - i)) (packet words.now i) out.old }
{
    out[p] = uppers_of(
        words[i],
        word_or_none(words, i + 1),
        word_or_none(words, i + 2),
        word_or_none(words, i + 3),
    );
    put_lower(out, p + 1, words, i);
}

// All packets: four words each, and a short one for the words that are left.
fn put_decles(out: &mut [u8], words: &[u16])
    requires { length out.old ≡ (length words.now + 3) / 4 + length words.now }
    ensures { out.new ≡ laid 0 ((length words.now + 3) / 4 + length words.now) (packets words.now) out.old }
{
    let k = words.len() / 4;
    put_packets(out, words, k);
    if 4 * k == words.len() {
        return;
    }
    put_short(out, 5 * k, words, 4 * k);
}

// In a form, into a part of just their size.
pub(crate) fn put_body(out: &mut [u8], words: &[u16], f: Form)
    requires { length out.old ≡ length (body_for f words.now) }
    ensures { out.new ≡ body_for f words.now }
{
    match f {
        Form::Bytes => {
            put_lower(out, 0, words, 0);
        }
        Form::Decles => {
            put_decles(out, words);
        }
        Form::Words => {
            put_words(out, words);
        }
        Form::Reserved => {}
    }
}

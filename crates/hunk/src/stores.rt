// The words of one data block, stored: bytes, packets of decles, 16-bit words (001, "8-bit", "10-bit" and "16-bit Data Block").
// No test stands in these loops: what they ask is that the data block is whole and its words have room.
ghost use Rattle.std.specs.Prelude.{◌+◌, ◌*◌, ◌/◌, ◌≤◌, ◌<◌, ◌≡◌, length};
ghost use Rattle.basics.specs.Bytes.{at16};
ghost use Rattle.basics.specs.Lists.{laid};
ghost use Rattle.hunk.specs.Forms.{size_for, decle, packed, word_for, word};
ghost use Rattle.hunk.specs.Code.Blocks.{Room};

use crate::Form;
use crate::forms::form_of;
use places::Locutus;

// 16 bits, the lower byte first.
fn get16(s: &[u8], at: usize) -> u16
    requires { at + 1 < length s.now }
    ensures { result ≡ at16 s.now at }
{
    u16::from_le_bytes([s[at], s[at + 1]])
}

// The n words of a 16-bit data block at p, to word a and on.
fn store_words(s: &[u8], p: usize, n: usize, ram: &mut [u16], a: usize)
    requires { (p + size_for Form.Words n ≤ length s.now) × (a + n ≤ length ram.old) }
    ensures { ram.new ≡ laid a n (word_for Form.Words s.now p n) ram.old }
{
    for i in 0..n {
        ram[a + i] = get16(s, p + 1 + 2 * i);
    }
}

// The n words of an 8-bit data block: bytes, and the word behind them.
fn store_bytes(s: &[u8], p: usize, n: usize, ram: &mut [u16], a: usize)
    requires { (1 ≤ n) × (p + size_for Form.Bytes n ≤ length s.now) × (a + n ≤ length ram.old) }
    ensures { ram.new ≡ laid a n (word_for Form.Bytes s.now p n) ram.old }
{
    let last = n - 1;
    for i in 0..last {
        ram[a + i] = u16::from(s[p + 1 + i]);
    }
    ram[a + last] = get16(s, p + 1 + last);
}

// The four decles of a whole packet.
fn packet(s: &[u8], at: usize, ram: &mut [u16], a: usize)
    requires { (at + 5 ≤ length s.now) × (a + 4 ≤ length ram.old) }
    ensures { ram.new ≡ laid a 4 (decle s.now at) ram.old }
{
    let upper = u16::from(s[at]);
    ram[a] = upper / 64 % 4 * 256 + u16::from(s[at + 1]);
    ram[a + 1] = upper / 16 % 4 * 256 + u16::from(s[at + 2]);
    ram[a + 2] = upper / 4 % 4 * 256 + u16::from(s[at + 3]);
    ram[a + 3] = upper % 4 * 256 + u16::from(s[at + 4]);
}

// k whole packets.
fn packets(s: &[u8], at: usize, k: usize, ram: &mut [u16], a: usize)
    requires { (at + 5 * k ≤ length s.now) × (a + 4 * k ≤ length ram.old) }
    ensures { ram.new ≡ laid a (4 * k) (packed s.now at) ram.old }
{
    for j in 0..k {
        packet(s, at + 5 * j, ram, a + 4 * j);
    }
}

// Decle k of the packet at a place.
fn decle_at(s: &[u8], at: usize, k: usize) -> u16
    requires { (k < 4) × (at + 1 + k < length s.now) }
    ensures { result ≡ decle s.now at k }
{
    let upper = u16::from(s[at]);
    let lower = u16::from(s[at + 1 + k]);
    if k == 0 {
        return upper / 64 % 4 * 256 + lower;
    }
    if k == 1 {
        return upper / 16 % 4 * 256 + lower;
    }
    if k == 2 {
        return upper / 4 % 4 * 256 + lower;
    }
    upper % 4 * 256 + lower
}

// The n decles of a short packet.
fn short(s: &[u8], at: usize, n: usize, ram: &mut [u16], a: usize)
    requires { (n < 4) × (at + (n + 3) / 4 + n ≤ length s.now) × (a + n ≤ length ram.old) }
    ensures { ram.new ≡ laid a n (decle s.now at) ram.old }
{
    for i in 0..n {
        ram[a + i] = decle_at(s, at, i);
    }
}

// n decles, in packets of four and a short one.
fn decles(s: &[u8], at: usize, n: usize, ram: &mut [u16], a: usize)
    requires { (at + (n + 3) / 4 + n ≤ length s.now) × (a + n ≤ length ram.old) }
    ensures { ram.new ≡ laid a n (packed s.now at) ram.old }
{
    let k = n / 4;
    packets(s, at, k, ram, a);
    short(s, at + 5 * k, n % 4, ram, a + 4 * k);
}

// The n words of a 10-bit data block: decles, and the word behind them.
fn store_decles(s: &[u8], p: usize, n: usize, ram: &mut [u16], a: usize)
    requires { (1 ≤ n) × (p + size_for Form.Decles n ≤ length s.now) × (a + n ≤ length ram.old) }
    ensures { ram.new ≡ laid a n (word_for Form.Decles s.now p n) ram.old }
{
    let last = n - 1;
    decles(s, p + 1, last, ram, a);
    ram[a + last] = get16(s, p + 1 + (last + 3) / 4 + last);
}

// The n words of the data block at p, from a place on.
pub(crate) fn store_block(s: &[u8], p: usize, n: usize, ram: &mut [u16], at: Locutus)
    requires { Room s.now p n (length ram.old) at.0 }
    ensures { ram.new ≡ laid at.0 n (word s.now p) ram.old }
{
    let a = at.0 as usize;
    match form_of(usize::from(s[p])) {
        Form::Bytes => {
            store_bytes(s, p, n, ram, a);
        }
        Form::Decles => {
            store_decles(s, p, n, ram, a);
        }
        Form::Words => {
            store_words(s, p, n, ram, a);
        }
        Form::Reserved => {}
    }
}

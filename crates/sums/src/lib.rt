// DOWCRC, CRC32/4 and IEEE CRC32: one maker of tables over the polynomial, and one sum over lent tables.
#![tactic(auto)]

ghost use Rattle.std.specs.Prelude.{◌+◌, ◌/◌, ◌%◌, ◌<◌, ◌≤◌, ◌≡◌, length};
ghost use Rattle.basics.specs.Laws.Tables.{Filled};
ghost use Rattle.sums.specs.Crc.{crc_bit, crc_bits, crc_byte, crc_from, dowcrc_of, crc324_of, crc32_of};
ghost use Rattle.sums.specs.Tables.{table_entries, entry_of, tables_of, entry_at, by_bytes, by_eight, by_eights, by_tables};

// The polynomials.
pub const DOW: u32 = 0x98;

pub const C324: u32 = 0x82F6_3B78;

pub const IEEE: u32 = 0xEDB8_8320;

// The entries of the eight tables of a polynomial.
pub const TABLE_ENTRIES: usize = 2048;

// One bit.
#[inline(always)]
fn bit(p: u32, c: u32) -> u32
    ensures { result ≡ crc_bit p c }
{
    if c % 2 == 1 { (c >> 1) ^ p } else { c >> 1 }
}

// Returns what n bits make of the sum c. This and `bit` are set into their callers, because the compiler makes a table of the loop only where it sees which
// polynomial and how many bits it has, as in JLP's CRC.
#[inline(always)]
pub fn bits(p: u32, n: usize, c: u32) -> u32
    ensures { result ≡ crc_bits p n c }
{
    let mut x = c;
    for k in 0..n {
        x = bit(p, x);
    }
    x
}

// One byte, bit by bit.
fn byte(p: u32, c: u32, b: u8) -> u32
    ensures { result ≡ crc_byte p c b }
{
    bits(p, 8, c ^ u32::from(b))
}

// The sum of s bit by bit, from the sum c of what stands before it: for a few bytes, with no tables.
fn bitwise(p: u32, c: u32, s: &[u8]) -> u32
    ensures { result ≡ crc_from p c s.now }
{
    let mut x = c;
    for &b in s {
        x = byte(p, x, b);
    }
    x
}

// The first of the eight tables, before zeros.
fn first(p: u32) -> [u32; TABLE_ENTRIES]
    ensures { Filled 0 table_entries (entry_of p) 256 result }
{
    let mut t = [0u32; TABLE_ENTRIES];
    for i in 0..256usize {
        t[i] = bits(p, 8, i as u32);
    }
    t
}

// The eight tables of a polynomial: each entry after the first table is a byte's step from the one 256 places before it.
pub fn tables(p: u32) -> [u32; TABLE_ENTRIES]
    ensures { result ≡ tables_of p }
{
    let mut t = first(p);
    for i in 256..TABLE_ENTRIES {
        let x = t[i - 256];
        let k = (x % 256) as usize;
        t[i] = (x >> 8) ^ t[k];
    }
    t
}

// What table j has for the byte b and the low byte of c.
fn entry(t: &[u32; TABLE_ENTRIES], j: usize, c: u32, b: u8) -> u32
    requires { j < 8 }
    ensures { result ≡ entry_at t.now j c b }
{
    let k = ((c ^ u32::from(b)) % 256) as usize;
    t[256 * j + k]
}

// Eight bytes of s from place i on. The last four come first: they ask nothing of c, which each step waits for.
fn eight(t: &[u32; TABLE_ENTRIES], c: u32, s: &[u8], i: usize) -> u32
    requires { i + 8 ≤ length s.now }
    ensures { result ≡ by_eight t.now c s.now i }
{
    let last = entry(t, 3, 0, s[i + 4])
        ^ (entry(t, 2, 0, s[i + 5]) ^ (entry(t, 1, 0, s[i + 6]) ^ entry(t, 0, 0, s[i + 7])));
    entry(t, 7, c, s[i])
        ^ (entry(t, 6, c >> 8, s[i + 1])
            ^ (entry(t, 5, c >> 16, s[i + 2]) ^ (entry(t, 4, c >> 24, s[i + 3]) ^ last)))
}

// All eights of s.
fn eights(t: &[u32; TABLE_ENTRIES], c: u32, s: &[u8]) -> u32
    ensures { result ≡ by_eights t.now c s.now (length s.now / 8) }
{
    let mut x = c;
    for n in 0..s.len() / 8 {
        x = eight(t, x, s, 8 * n);
    }
    x
}

// The bytes of s, one at a time.
fn bytes(t: &[u32; TABLE_ENTRIES], c: u32, s: &[u8]) -> u32
    ensures { result ≡ by_bytes t.now c s.now }
{
    let mut x = c;
    for &b in s {
        x = (x >> 8) ^ entry(t, 0, x, b);
    }
    x
}

// The sum of s by lent tables, from the sum c of what stands before it.
pub fn sum_by(t: &[u32; TABLE_ENTRIES], c: u32, s: &[u8]) -> u32
    ensures { result ≡ by_tables t.now c s.now }
{
    let at = 8 * (s.len() / 8);
    bytes(t, eights(t, c, s), &s[at..])
}

// DOWCRC by lent tables.
pub fn dowcrc_by(t: &[u32; TABLE_ENTRIES], s: &[u8]) -> u8
    ensures { result ≡ by_tables t.now 0 s.now % 256 }
{
    (sum_by(t, 0, s) % 256) as u8
}

// The three sums of s, each with its tables made for the call.
pub fn dowcrc(s: &[u8]) -> u8
    ensures { result ≡ dowcrc_of s.now }
{
    let t = tables(DOW);
    dowcrc_by(&t, s)
}

// DOWCRC of the few bytes of a header.
pub fn dowcrc_short(s: &[u8]) -> u8
    ensures { result ≡ dowcrc_of s.now }
{
    (bitwise(DOW, 0, s) % 256) as u8
}

pub fn crc324(s: &[u8]) -> u32
    ensures { result ≡ crc324_of s.now }
{
    let t = tables(C324);
    sum_by(&t, 0, s)
}

pub fn crc32(s: &[u8]) -> u32
    ensures { result ≡ crc32_of s.now }
{
    let t = tables(IEEE);
    sum_by(&t, 0xFFFF_FFFF, s) ^ 0xFFFF_FFFF
}

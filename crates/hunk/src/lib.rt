// Data hunks, both ways: a check that names the byte where one breaks, a store of its words, and a payload written of a paragraph's
// words (001, "Block Type 0x02: Data Hunk").
#![tactic(auto)]

mod bodies;
mod choice;
mod data;
mod forms;
mod stores;

ghost use Rattle.std.specs.Prelude.{◌+◌, ◌*◌, ◌≤◌, ◌≡◌, ltb, length};
ghost use Rattle.basics.specs.Lists.{lay, put_front};
ghost use Rattle.places.specs.Limits.{lent, lent_limit, paragraph_size};
ghost use Rattle.places.specs.Places.{locutus};
ghost use Rattle.hunk.specs.Hunk.{hunk, address, words_of, check_hunk, store_hunk, hunk_payload, payload_size};
ghost use Rattle.hunk.specs.Code.Blocks.{block_at, Storable};

use data::{cuts_size, put_address, write_cuts};
use forms::{count_of, form_of, size_of};
use places::{Locutus, PARAGRAPH_SIZE, lent_words};
use stores::store_block;

// The forms of a data block: 8-bit, 10-bit, 16-bit, and what a start byte may not say.
#[derive(Clone, Copy, PartialEq, Eq)]
pub enum Form {
    Bytes,
    Decles,
    Words,
    Reserved,
}

// A data block that is whole: how many words it has, and the place behind it.
#[derive(Clone, Copy)]
struct DataBlock {
    words: usize,
    next: usize,
}

// The data block at p, and none at the payload's end; the error is p, where a data block is cut or reserved.
fn block_at(s: &[u8], p: usize) -> Result<Option<DataBlock>, usize>
    ensures { result ≡ block_at s.now p }
{
    if s.len() <= p {
        return Ok(None);
    }
    let b = usize::from(s[p]);
    let f = form_of(b);
    let words = count_of(f, b);
    let long = size_of(f, words);
    if f == Form::Reserved || s.len() - p < long {
        return Err(p);
    }
    Ok(Some(DataBlock {
        words,
        next: p + long,
    }))
}

// The word address at a hunk's start.
fn address_of(s: &[u8]) -> Locutus
    requires { 3 ≤ length s.now }
    ensures { result ≡ address s.now }
{
    Locutus(u32::from_le_bytes([s[0], s[1], s[2], 0]))
}

// Whether n words from an address on go past m words of RAM.
fn past(at: Locutus, n: usize, m: usize) -> bool
    ensures { result ≡ ltb m (at.0 + n) }
{
    m < n || m - n < at.0 as usize
}

// How many words a hunk has, all of which lie in m words of RAM; the error is the byte where it breaks.
pub fn check(s: &[u8], m: usize) -> Result<usize, usize>
    ensures { result ≡ check_hunk s.now m }
{
    if s.len() < 3 {
        return Err(0);
    }
    let at = address_of(s);
    let mut p = 3;
    let mut n = 0;
    while let Some(d) = block_at(s, p)? {
        n += d.words;
        if past(at, n, m) {
            return Err(p);
        }
        p = d.next;
    }
    Ok(n)
}

// The place n words on.
fn after(at: Locutus, n: usize) -> Locutus
    requires { at.0 + n ≤ lent_limit }
    ensures { result ≡ locutus (at.0 + n) }
{
    Locutus(at.0 + n as u32)
}

// The words of a hunk that has passed the check, one data block after the other.
fn store_blocks(s: &[u8], ram: &mut [u16])
    requires { Storable s.now (lent ram.old) }
    ensures { ram.new ≡ lay (address s.now).0 (words_of s.now) ram.old }
{
    let mut at = address_of(s);
    let mut p = 3;
    while let Some(d) = block_at(s, p).unwrap_or(None) {
        store_block(s, p, d.words, ram, at);
        at = after(at, d.words);
        p = d.next;
    }
}

// Stores a hunk's words, where the check passes for the words lent; else nothing.
pub fn store(s: &[u8], ram: &mut [u16])
    ensures { ram.new ≡ store_hunk s.now ram.old }
{
    if check(s, lent_words(ram)).is_ok() {
        store_blocks(s, ram);
    }
}

// How many bytes the payload of a paragraph's words has.
pub fn size(words: &[u16; PARAGRAPH_SIZE]) -> usize
    ensures { (result ≡ payload_size words.now) × (result ≤ 3 + 3 * paragraph_size) }
{
    3 + cuts_size(words)
}

// The payload of a paragraph's words, at the front of a buffer that has room for it.
pub fn write(out: &mut [u8], at: Locutus, words: &[u16; PARAGRAPH_SIZE])
    ensures { out.new ≡ put_front (hunk_payload (hunk at words.now)) out.old }
{
    let n = size(words);
    if out.len() < n {
        return;
    }
    put_address(&mut out[0..3], at);
    write_cuts(&mut out[3..n], words);
}

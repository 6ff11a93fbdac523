// The words of a plan as a BIN has them: big endian, from a RAM.
ghost use Rattle.std.specs.Prelude.{◌*◌, ◌≤◌, max, ◌≡◌, [], ◌∷◌, not, eqb, get_or, length};
ghost use Rattle.basics.specs.Lists.{joined, put_front};
ghost use Rattle.places.specs.Limits.{chapter_size, page_size, slots};
ghost use Rattle.canon.specs.Bin.{be16, canonical_bin, words_from};
ghost use Rattle.canon.specs.Laws.Bin.{bin_size};
ghost use Rattle.ledger.specs.Code.Bytes.{both_bytes, page_bytes, rom_bytes};
ghost use Rattle.ledger.specs.Held.{sketched, words_in};

use crate::Sketch;
use crate::entries::page_words;
use basics::{high, low, put_bytes};
use places::{CHAPTER_PAGES, FLIP_ENTRIES, PARAGRAPH_SIZE, PARAGRAPHS};

// A word of a RAM; 0 past its end, as in the definitions.
pub fn word_of(ram: &[u16], at: usize) -> u16
    ensures { result ≡ get_or ram.now at 0 }
{
    ram.get(at).copied().unwrap_or(0)
}

// Writes words, the higher byte first, into a part of just their size.
fn put_each(out: &mut [u8], words: &[u16])
    requires { length out.old ≡ 2 * length words.now }
    ensures { out.new ≡ joined be16 words.now }
{
    for i in 0..words.len() {
        let word = words[i];
        out[2 * i] = high(word);
        out[2 * i + 1] = low(word);
    }
}

// Writes n words of a RAM from word a on into a part of just their size. Those past the RAM's end are 0.
fn put_words(out: &mut [u8], ram: &[u16], a: usize, n: usize)
    requires { (length out.old ≡ 2 * n) × (a ≤ page_size * slots) × (n ≤ chapter_size) }
    ensures { out.new ≡ joined be16 (words_from (words_in ram.now) a n) }
{
    let from = a.min(ram.len());
    let end = (a + n).min(ram.len());
    let size = 2 * (end - from);
    put_each(&mut out[..size], &ram[from..end]);
    out[size..].fill(0);
}

// One zero word.
fn put_zero(out: &mut [u8])
    ensures { out.new ≡ put_front (0 ∷ 0 ∷ []) out.old }
{
    put_bytes(out, &[0, 0])
}

impl Sketch {
    // Writes the words of the plain paragraphs of ROM at the front of a buffer, by address. Returns how many bytes they are.
    fn put_roms(&self, out: &mut [u8], ram: &[u16]) -> usize
        requires { length (rom_bytes self.now ram.now) ≤ length out.old }
        ensures length { result ≡ length (rom_bytes self.now ram.now) }
        ensures bytes { out.new ≡ put_front (rom_bytes self.now ram.now) out.old }
    {
        let mut at = 0;
        for p in 0..PARAGRAPHS {
            if self.kinds[p] == 1 {
                let e = at + 2 * PARAGRAPH_SIZE;
                let a = self.plain_place(p);
                put_words(&mut out[at..e], ram, a, PARAGRAPH_SIZE);
                at = e;
            }
        }
        at
    }

    // Writes the words of the pages at the front of a buffer, by chapter and page. Returns how many bytes they are.
    fn put_pages(&self, out: &mut [u8], ram: &[u16]) -> usize
        requires { length (page_bytes self.now ram.now) ≤ length out.old }
        ensures length { result ≡ length (page_bytes self.now ram.now) }
        ensures bytes { out.new ≡ put_front (page_bytes self.now ram.now) out.old }
    {
        let mut at = 0;
        for n in 0..FLIP_ENTRIES {
            if self.pages[n] {
                let k = page_words(n / CHAPTER_PAGES);
                let e = at + 2 * k;
                let a = self.page_place(n);
                put_words(&mut out[at..e], ram, a, k);
                at = e;
            }
        }
        at
    }

    // Writes the words of ROM, and those of the pages after them. Returns whether there is a word.
    fn put_both(&self, out: &mut [u8], ram: &[u16]) -> bool
        requires { 2 * max 1 (bin_size (sketched self.now)) ≤ length out.old }
        ensures some { result ≡ not (eqb (bin_size (sketched self.now)) 0) }
        ensures bytes { out.new ≡ put_front (both_bytes self.now ram.now) out.old }
    {
        let a = self.put_roms(out, ram);
        let b = self.put_pages(&mut out[a..], ram);
        a != 0 || b != 0
    }

    // Returns how many bytes the BIN of a plan has.
    pub fn bin_size(&self) -> usize
        ensures { result ≡ 2 * max 1 (bin_size (sketched self.now)) }
    {
        2 * self.page_offset(FLIP_ENTRIES).max(1)
    }

    // Writes the BIN of a plan, with the words of a RAM, at the front of a buffer that has room for it.
    pub fn put_bin(&self, out: &mut [u8], ram: &[u16])
        ensures { out.new ≡ put_front (canonical_bin (sketched self.now) (words_in ram.now)) out.old }
    {
        if out.len() < self.bin_size() {
            return;
        }
        if !self.put_both(out, ram) {
            put_zero(out);
        }
    }
}

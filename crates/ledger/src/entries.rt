// The canonical entries of a plan (02, W-213).
ghost use Rattle.std.specs.Prelude.{◌+◌, ◌*◌, ◌-◌, ◌≤◌, ◌<◌, ◌≡◌};
ghost use Rattle.places.specs.Limits.{chapter_size, flip_entries, paragraphs, paragraph_size};
ghost use Rattle.plan.specs.Valid.{is_ram_kind};
ghost use Rattle.canon.specs.Canonical.{page_entry, page_offset, page_words, ram_entry, ram_width, rom_entry, rom_offset, run_at, starts_ram, starts_rom};
ghost use Rattle.ledger.specs.Held.{sketched, starts_in};

use crate::Sketch;
use lines::{Entry, Width};
use places::{
    BinWord, CHAPTER_PAGES, CHAPTER_PARAGRAPHS, CHAPTER_SIZE, Console, PARAGRAPH_SIZE, PARAGRAPHS,
    Page,
};
use switches::first_k;

impl Sketch {
    // Whether a run of plain paragraphs starts at paragraph p.
    fn starts(&self, p: usize) -> bool
        requires { p < paragraphs }
        ensures { result ≡ starts_in self.now.kinds self.now.pages p }
    {
        self.kinds[p] != 0 && (p == 0 || self.kinds[p - 1] != self.kinds[p])
    }

    // Whether a run of ROM starts there.
    pub(crate) fn starts_rom(&self, p: usize) -> bool
        requires { p < paragraphs }
        ensures { result ≡ starts_rom (sketched self.now) p }
    {
        self.starts(p) && self.kinds[p] == 1
    }

    // Whether a run of RAM starts there.
    pub(crate) fn starts_ram(&self, p: usize) -> bool
        requires { p < paragraphs }
        ensures { result ≡ starts_ram (sketched self.now) p }
    {
        self.starts(p) && is_ram_kind(self.kinds[p])
    }

    // Returns how many paragraphs from p on have p's kind, one after the other.
    fn run_at(&self, p: usize) -> usize
        requires { p < paragraphs }
        ensures { (result ≡ run_at (sketched self.now) p) × (p + result ≤ paragraphs) }
    {
        for n in 0..PARAGRAPHS - p {
            if self.kinds[p + n] != self.kinds[p] {
                return n;
            }
        }
        PARAGRAPHS - p
    }

    // Returns the BIN word at which plain paragraph p starts.
    fn rom_offset(&self, p: usize) -> usize
        requires { p ≤ paragraphs }
        ensures { (result ≡ rom_offset (sketched self.now) p) × (result ≤ paragraph_size * p) }
    {
        PARAGRAPH_SIZE * (0..p).filter(|&i| self.kinds[i] == 1).count()
    }

    // Returns the BIN word at which page n % 16 of chapter n / 16 starts.
    pub(crate) fn page_offset(&self, n: usize) -> usize
        requires { n ≤ flip_entries }
        ensures { (result ≡ page_offset (sketched self.now) n) × (result ≤ paragraph_size * paragraphs + chapter_size * n) }
    {
        let mut o = self.rom_offset(PARAGRAPHS);
        for i in 0..n {
            if self.pages[i] {
                o += page_words(i / CHAPTER_PAGES);
            }
        }
        o
    }

    // Returns the entry of the run of ROM that starts at paragraph p.
    pub(crate) fn rom_entry(&self, p: usize) -> Entry
        requires { p < paragraphs }
        ensures { result ≡ rom_entry (sketched self.now) p }
    {
        let at = self.rom_offset(p);
        let more = words_but_one(self.run_at(p));
        Entry::Rom(
            BinWord(at as u32),
            BinWord((at + more) as u32),
            Console((PARAGRAPH_SIZE * p) as u16),
        )
    }

    // Returns the entry of page n % 16 of chapter n / 16.
    pub(crate) fn page_entry(&self, n: usize) -> Entry
        requires { n < flip_entries }
        ensures { result ≡ page_entry (sketched self.now) n }
    {
        let x = n / CHAPTER_PAGES;
        let at = self.page_offset(n);
        let more = page_words(x) - 1;
        let from = CHAPTER_SIZE * x + PARAGRAPH_SIZE * first_k(x);
        Entry::Paged(
            BinWord(at as u32),
            BinWord((at + more) as u32),
            Console(from as u16),
            Page((n % CHAPTER_PAGES) as u8),
        )
    }

    // Returns the entry of the run of RAM that starts at paragraph p.
    pub(crate) fn ram_entry(&self, p: usize) -> Entry
        requires { p < paragraphs }
        ensures { result ≡ ram_entry (sketched self.now) p }
    {
        let more = words_but_one(self.run_at(p));
        let from = PARAGRAPH_SIZE * p;
        Entry::Ram(
            Console(from as u16),
            Console((from + more) as u16),
            width_of(self.kinds[p]),
        )
    }
}

// Returns the words of a page of chapter x.
pub(crate) fn page_words(x: usize) -> usize
    ensures { (result ≡ page_words x) × ((1 ≤ result) × (result ≤ chapter_size)) }
{
    PARAGRAPH_SIZE * (CHAPTER_PARAGRAPHS - first_k(x))
}

// Returns the words of r paragraphs, except the last.
fn words_but_one(r: usize) -> usize
    requires { r ≤ paragraphs }
    ensures { result ≡ paragraph_size * r - 1 }
{
    if r == 0 { 0 } else { PARAGRAPH_SIZE * r - 1 }
}

pub(crate) fn is_ram_kind(kind: u8) -> bool
    ensures { result ≡ is_ram_kind kind }
{
    kind == 3 || kind == 7
}

fn width_of(kind: u8) -> Width
    ensures { result ≡ ram_width kind }
{
    if kind == 3 {
        Width::Sixteen
    } else {
        Width::Eight
    }
}

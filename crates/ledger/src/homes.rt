// Where the words of a plan stand in Locutus RAM: plain paragraphs, and pages.
ghost use Rattle.std.specs.Prelude.{◌*◌, ◌≤◌, ◌<◌, ◌≡◌};
ghost use Rattle.basics.specs.Counts.{count};
ghost use Rattle.places.specs.Limits.{chapter_pages, chapters, flip_entries, layers, page_size, paragraphs, slots};
ghost use Rattle.plan.specs.Image.{base, holds_ram, ram_covered_of, size};
ghost use Rattle.plan.specs.Plan.{has_plain};
ghost use Rattle.plan.specs.Valid.{is_ram_kind};
ghost use Rattle.canon.specs.Bin.{page_place, plain_place};
ghost use Rattle.ledger.specs.Held.{sketched};

use crate::Sketch;
use crate::entries::is_ram_kind;
use places::{CHAPTER_PAGES, CHAPTER_PARAGRAPHS, CHAPTERS, PAGE_PARAGRAPHS, PARAGRAPH_SIZE};
use switches::first_k;

impl Sketch {
    // Whether chapter x has plain paragraphs.
    fn has_plain(&self, x: usize) -> bool
        requires { x < chapters }
        ensures { result ≡ has_plain (sketched self.now x) }
    {
        // A chain here, and one in `pages_below`, made an image's way back to its BIN several times slower. All sixteen kinds are looked at, since a
        // way out at the first that is plain keeps the compiler from looking at them together.
        let mut plain = false;
        for k in 0..CHAPTER_PARAGRAPHS {
            plain = (self.kinds[CHAPTER_PARAGRAPHS * x + k] != 0) | plain;
        }
        plain
    }

    // Returns how many pages chapter x has below page y.
    fn pages_below(&self, x: usize, y: usize) -> usize
        requires { (x < chapters) × (y ≤ chapter_pages) }
        ensures { (result ≡ count (sketched self.now x).page y) × (result ≤ y) }
    {
        let mut n = 0;
        for i in 0..y {
            n += usize::from(self.pages[CHAPTER_PAGES * x + i]);
        }
        n
    }

    // Returns the Locutus pages of chapter x.
    fn size_of(&self, x: usize) -> usize
        requires { x < chapters }
        ensures { (result ≡ size (sketched self.now x)) × (result ≤ layers) }
    {
        usize::from(self.has_plain(x)) + self.pages_below(x, CHAPTER_PAGES)
    }

    // Returns the Locutus pages of the chapters before chapter x.
    fn base_of(&self, x: usize) -> usize
        requires { x ≤ chapters }
        ensures { (result ≡ base (sketched self.now) x) × (result ≤ layers * x) }
    {
        let mut b = 0;
        for i in 0..x {
            b += self.size_of(i);
        }
        b
    }

    // Returns the Locutus word at which plain paragraph p starts.
    pub(crate) fn plain_place(&self, p: usize) -> usize
        requires { p < paragraphs }
        ensures { (result ≡ plain_place (sketched self.now) p) × (result ≤ page_size * slots) }
    {
        let b = self.base_of(p / CHAPTER_PARAGRAPHS);
        PARAGRAPH_SIZE * (PAGE_PARAGRAPHS * b + p % CHAPTER_PARAGRAPHS)
    }

    // Returns the Locutus word at which page n % 16 of chapter n / 16 starts.
    pub(crate) fn page_place(&self, n: usize) -> usize
        requires { n < flip_entries }
        ensures { (result ≡ page_place (sketched self.now) n) × (result ≤ page_size * slots) }
    {
        let x = n / CHAPTER_PAGES;
        let b = self.base_of(x);
        let plain = usize::from(self.has_plain(x));
        let before = self.pages_below(x, n % CHAPTER_PAGES);
        PARAGRAPH_SIZE * (PAGE_PARAGRAPHS * (b + plain + before) + first_k(x))
    }

    // Whether Locutus paragraph p holds RAM of chapter x.
    fn in_ram(&self, x: usize, p: usize) -> bool
        requires { x < chapters }
        ensures { result ≡ holds_ram (sketched self.now x) (base (sketched self.now) x) p }
    {
        // Both tests are made: the base is the same for all paragraphs, so the compiler finds it once for those that are asked one after the other.
        let base = self.base_of(x);
        (p / CHAPTER_PARAGRAPHS == base)
            & is_ram_kind(self.kinds[CHAPTER_PARAGRAPHS * x + p % CHAPTER_PARAGRAPHS])
    }

    // Whether Locutus paragraph p holds RAM of some chapter.
    pub fn holds_ram(&self, p: usize) -> bool
        ensures { result ≡ ram_covered_of (sketched self.now) p }
    {
        let mut held = false;
        for x in 0..CHAPTERS {
            held = self.in_ram(x, p) | held;
        }
        held
    }
}

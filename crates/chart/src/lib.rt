// What shows at each of the console's paragraphs, by a cartridge's tables and accelerators as they are: of one that was just loaded, what power-on shows.
// And what each page of a chapter shows.
#![tactic(auto)]

ghost use Rattle.std.specs.Prelude.{◌/◌, ◌≡◌};
ghost use Rattle.places.specs.Limits.{chapter_paragraphs};
ghost use Rattle.chart.specs.Chart.{start_of, has_pages, is_paged, kind_of, shown_at, page_of, leaf_at};

use cart::Cartridge;
use places::{
    CHAPTER_PAGES, CHAPTER_PARAGRAPHS, Console, FLIP_ENTRIES, LOCUTUS_PARAGRAPHS, PAGE_PARAGRAPHS,
    PARAGRAPH_SIZE,
};

// The pages of the RAM that can be lent.
pub const LOCUTUS_PAGES: usize = LOCUTUS_PARAGRAPHS / PAGE_PARAGRAPHS;

// What a paragraph shows: nobody answers, the accelerators, pages, or words that no flip changes, by what the console may do with them.
#[derive(Clone, Copy)]
pub enum Shown {
    Silent,
    Accelerators,
    Paged,
    Rom,
    Ram16,
    Ram8,
}

// What a flip entry shows in its chapter: nothing, where it does not act; silence; or a page of the cartridge's RAM, by its number there.
#[derive(Clone, Copy)]
pub enum Leaf {
    Idle,
    Silent,
    Page(u8),
}

// The address of a paragraph's first word.
fn start_of(p: u8) -> Console
    ensures { result ≡ start_of p }
{
    Console((p as usize * PARAGRAPH_SIZE) as u16)
}

// The chapter of paragraph p has a flip entry that acts.
pub fn has_pages(flips: &[u16; FLIP_ENTRIES], p: u8) -> bool
    ensures { result ≡ has_pages flips.now (p / chapter_paragraphs) }
{
    let x = p as usize / CHAPTER_PARAGRAPHS;
    (0..CHAPTER_PAGES).any(|y| switches::acts(flips, (CHAPTER_PAGES * x + y) as u8))
}

// Paragraph p is one that such an entry changes.
pub fn is_paged(flips: &[u16; FLIP_ENTRIES], p: u8) -> bool
    ensures { result ≡ is_paged flips.now p }
{
    let i = p as usize;
    switches::first_k(i / CHAPTER_PARAGRAPHS) <= i % CHAPTER_PARAGRAPHS && has_pages(flips, p)
}

// What words with this permission are to the console.
fn kind_of(permission: u8) -> Shown
    ensures { result ≡ kind_of permission }
{
    let may = cart::rights_of(permission);
    if !may.read {
        return Shown::Silent;
    }
    if !may.write {
        return Shown::Rom;
    }
    if !may.narrow {
        return Shown::Ram16;
    }
    Shown::Ram8
}

// What shows at paragraph p.
pub fn shown_at(c: Cartridge, p: u8) -> Shown
    ensures { result ≡ shown_at c p }
{
    let at = start_of(p);
    if cart::is_silent(at) {
        return Shown::Silent;
    }
    if c.jlp.on && jlp::in_window(at) {
        return Shown::Accelerators;
    }
    if is_paged(&c.flips, p) {
        return Shown::Paged;
    }
    kind_of(c.permissions[p as usize])
}

// The page of the cartridge's RAM that a flip entry names.
fn page_of(entry: u16) -> u8
    ensures { result ≡ page_of entry }
{
    (entry as usize / CHAPTER_PARAGRAPHS % LOCUTUS_PAGES) as u8
}

// What flip entry n shows.
pub fn leaf_at(flips: &[u16; FLIP_ENTRIES], n: u8) -> Leaf
    ensures { result ≡ leaf_at flips.now n }
{
    let i = n as usize;
    if !switches::acts(flips, n) {
        return Leaf::Idle;
    }
    let entry = flips[i];
    if entry % 2 != 1 {
        return Leaf::Silent;
    }
    Leaf::Page(page_of(entry))
}

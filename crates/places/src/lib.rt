// The three numberings of 01 ("What the cartridge desk gets"), and every number of 01. No function here turns one numbering
// into another, and none adds two of them: only the cartridge's mapping and the builder's layout convert.
#![tactic(auto)]

ghost use Rattle.std.specs.Prelude.{◌≡◌, ◌≤◌, length};
ghost use Rattle.places.specs.Limits.{lent, lent_limit};

// An address as the console puts it on the bus.
#[derive(Clone, Copy)]
pub struct Console(pub u16);

// A word's place in the cartridge's RAM.
#[derive(Clone, Copy)]
pub struct Locutus(pub u32);

// A word's place in a publisher's BIN.
#[derive(Clone, Copy)]
pub struct BinWord(pub u32);

// The number of a page in its chapter, 0 to 15.
#[derive(Clone, Copy)]
pub struct Page(pub u8);

// How many words of a lent RAM count.
pub const LENT_LIMIT: usize = 524288;

// The most bytes of an image, of a BIN and of a CFG, and the most entries of a CFG.
pub const IMAGE_LIMIT: usize = 2097152;

pub const BIN_LIMIT: usize = 524288;

pub const CFG_LIMIT: usize = 16384;

pub const LINE_LIMIT: usize = 128;

// The longest file that the image card takes, and the words that it lends.
pub const CARD_LIMIT: usize = 24576;

pub const CARD_WORDS: usize = 16384;

// The console's chapters and paragraphs, the paragraphs of a chapter, the words of a paragraph and of a chapter; and the words of
// a page of chapter 4, and where they start.
pub const CHAPTERS: usize = 16;

pub const PARAGRAPHS: usize = 256;

pub const CHAPTER_PARAGRAPHS: usize = 16;

pub const PARAGRAPH_SIZE: usize = 256;

pub const CHAPTER_SIZE: usize = 4096;

pub const HALF_SIZE: usize = 2048;

pub const HALF_START: usize = 0x4800;

// A chapter's pages, the flip entries of all chapters, and a chapter's layers: its pages and its plain lines.
pub const CHAPTER_PAGES: usize = 16;

pub const FLIP_ENTRIES: usize = 256;

pub const LAYERS: usize = 17;

// The slots: the layers of all chapters. The cells: the paragraphs of all layers.
pub const SLOTS: usize = CHAPTERS * LAYERS;

pub const CELLS: usize = LAYERS * PARAGRAPHS;

// The words and the paragraphs of a Locutus page, and the paragraphs of Locutus RAM.
pub const PAGE_SIZE: usize = 4096;

pub const PAGE_PARAGRAPHS: usize = 16;

pub const LOCUTUS_PARAGRAPHS: usize = 2048;

// How many words of a RAM are lent.
pub fn lent_words(ram: &[u16]) -> usize
    ensures { (result ≡ lent ram.now) × (result ≤ length ram.now) }
{
    ram.len().min(LENT_LIMIT)
}

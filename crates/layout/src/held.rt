// What each Locutus paragraph holds: a paragraph of the console, and the line behind it.
ghost use Rattle.std.specs.Prelude.{◌*◌, ◌<◌, ◌≡◌};
ghost use Rattle.basics.specs.Tables.{table};
ghost use Rattle.places.specs.Places.{console};
ghost use Rattle.places.specs.Limits.{cells, slots, paragraphs, paragraph_size, locutus_paragraphs};
ghost use Rattle.layout.specs.Code.Entries.{slot_in, paragraph_in, held_in, mark_in};

use crate::found::Survey;
use places::{
    CHAPTER_PARAGRAPHS, Console, LAYERS, LOCUTUS_PARAGRAPHS, PAGE_PARAGRAPHS, PARAGRAPH_SIZE,
    PARAGRAPHS,
};
use std::array;

// The slot of the page that Locutus paragraph p lies on.
fn slot_at(s: &Survey, p: usize) -> usize
    requires { p < cells }
    ensures slot { result ≡ slot_in s.now p }
    ensures within { result < slots }
{
    usize::from(s.slot[p / PAGE_PARAGRAPHS])
}

// The console paragraph that Locutus paragraph p holds.
fn paragraph_at(s: &Survey, p: usize) -> usize
    requires { p < cells }
    ensures paragraph { result ≡ paragraph_in s.now p }
    ensures within { result < paragraphs }
{
    CHAPTER_PARAGRAPHS * (slot_at(s, p) / LAYERS) + p % PAGE_PARAGRAPHS
}

// Its first address.
pub(crate) fn address_at(s: &Survey, p: usize) -> Console
    requires { p < cells }
    ensures { result ≡ console (paragraph_size * paragraph_in s.now p) }
{
    Console((PARAGRAPH_SIZE * paragraph_at(s, p)) as u16)
}

// The number of the line behind it, where there are so many pages; 0 where there is none.
pub(crate) fn held_at(s: &Survey, p: usize) -> u8
    requires { p < cells }
    ensures { result ≡ held_in s.now p }
{
    if usize::from(s.pages) <= p / PAGE_PARAGRAPHS {
        return 0;
    }
    s.cells[PARAGRAPHS * (slot_at(s, p) % LAYERS) + paragraph_at(s, p)]
}

// The covered paragraphs.
pub(crate) fn marks_of(s: &Survey) -> [bool; LOCUTUS_PARAGRAPHS]
    ensures { result ≡ table locutus_paragraphs (mark_in s.now) }
{
    array::from_fn(|p| held_at(s, p) != 0)
}

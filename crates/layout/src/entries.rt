// The entries of the three tables: flips, mapping, permissions.
ghost use Rattle.std.specs.Prelude.{◌≤◌, ◌<◌, ◌≡◌, IfSome};
ghost use Rattle.basics.specs.Tables.{table};
ghost use Rattle.places.specs.Limits.{slots, chapters, chapter_pages, flip_entries, paragraphs};
ghost use Rattle.layout.specs.Code.Entries.{answer_in, row_in, rows_in, flip_in, flips_by, flippable_in, mapping_in, permissions_in};

use crate::found::Survey;
use places::{
    CHAPTER_PAGES, CHAPTER_PARAGRAPHS, CHAPTERS, FLIP_ENTRIES, LAYERS, PAGE_PARAGRAPHS, PARAGRAPHS,
};
use std::array;

// The page that answers in chapter x while page y is asked for: the PAGE line's, else that of plain ROM that covers the flippable
// range, else none.
fn answer_at(s: &Survey, x: usize, y: usize) -> Option<u16>
    requires { (x < chapters) × (y < chapter_pages) }
    ensures answer { result ≡ answer_in s.now x y }
    ensures few { IfSome result (λ page. page ≤ slots) }
{
    let i = LAYERS * x + (y + 1);
    if s.used[i] {
        Some(s.page[i])
    } else if s.under[x] {
        Some(s.page[LAYERS * x])
    } else {
        None
    }
}

// Gathers which page answers in chapter x, for each page that may be asked for.
fn row_of(s: &Survey, x: usize) -> [Option<u16>; CHAPTER_PAGES]
    requires { x < chapters }
    ensures { result ≡ row_in s.now x }
{
    array::from_fn(|y| answer_at(s, x, y))
}

// Gathers the rows of all chapters: sixteen rows of sixteen pages.
fn rows_of(s: &Survey) -> [[Option<u16>; CHAPTER_PAGES]; CHAPTERS]
    ensures { result ≡ rows_in s.now }
{
    array::from_fn(
        |x|
            requires { x < chapters }
            ensures { (result ≡ row_in s.entry.now x) × (s.exit ≡ s.entry) }
        { row_of(s, x) },
    )
}

// 16L + 9 for the page L that answers, else 8; 0 in a chapter without PAGE lines.
fn flip_at(s: &Survey, rows: &[[Option<u16>; CHAPTER_PAGES]; CHAPTERS], n: usize) -> u16
    requires { (n < flip_entries) × (rows.now ≡ rows_in s.now) }
    ensures { result ≡ flip_in s.now n }
{
    let x = n / CHAPTER_PAGES;
    if !s.paged[x] {
        return 0;
    }
    match rows[x][n % CHAPTER_PAGES] {
        Some(page) => PAGE_PARAGRAPHS as u16 * page + 9,
        None => 8,
    }
}

// The pages that answer are gathered first, and then written as the flip table.
pub(crate) fn flips_of(s: &Survey) -> [u16; FLIP_ENTRIES]
    ensures { result ≡ flips_by s.now }
{
    let rows = rows_of(s);
    array::from_fn(|n| flip_at(s, &rows, n))
}

// Whether paragraph p lies in the flippable range of a chapter with PAGE lines.
fn is_flippable(s: &Survey, p: usize) -> bool
    requires { p < paragraphs }
    ensures { result ≡ flippable_in s.now p }
{
    let x = p / CHAPTER_PARAGRAPHS;
    s.paged[x] && switches::first_k(x) <= p % CHAPTER_PARAGRAPHS
}

// The mapping of a paragraph: as its flip entry gives it, else 16L + k where a plain line is, else 0.
fn mapping_at(s: &Survey, flips: &[u16; FLIP_ENTRIES], p: usize) -> u16
    requires { p < paragraphs }
    ensures { result ≡ mapping_in s.now flips.now p }
{
    let x = p / CHAPTER_PARAGRAPHS;
    let k = (p % CHAPTER_PARAGRAPHS) as u16;
    if is_flippable(s, p) {
        return flips[CHAPTER_PAGES * x] / 16 * 16 + k;
    }
    if s.kinds[p] == 0 {
        return 0;
    }
    PAGE_PARAGRAPHS as u16 * s.page[LAYERS * x] + k
}

pub(crate) fn mapping_of(s: &Survey, flips: &[u16; FLIP_ENTRIES]) -> [u16; PARAGRAPHS]
    ensures { result ≡ table paragraphs (mapping_in s.now flips.now) }
{
    array::from_fn(|p| mapping_at(s, flips, p))
}

// Its permissions: as its flip entry gives them, else its kind.
fn permissions_at(s: &Survey, flips: &[u16; FLIP_ENTRIES], p: usize) -> u8
    requires { p < paragraphs }
    ensures { result ≡ permissions_in s.now flips.now p }
{
    if is_flippable(s, p) {
        (flips[CHAPTER_PAGES * (p / CHAPTER_PARAGRAPHS)] % 8) as u8
    } else {
        s.kinds[p]
    }
}

pub(crate) fn permissions_of(s: &Survey, flips: &[u16; FLIP_ENTRIES]) -> [u8; PARAGRAPHS]
    ensures { result ≡ table paragraphs (permissions_in s.now flips.now) }
{
    array::from_fn(|p| permissions_at(s, flips, p))
}

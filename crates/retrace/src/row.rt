// What a chapter's row of flip entries shows of its pages, and the chapter behind it and its permissions.
ghost use Rattle.std.specs.Prelude.{◌+◌, ◌*◌, ◌≤◌, ◌<◌, ◌≡◌, ◌&&◌, cond, false, not, eqb, get_or};
ghost use Rattle.basics.specs.Counts.{any};
ghost use Rattle.places.specs.Limits.{chapter_pages, chapter_paragraphs, chapters, layers, page_paragraphs, paragraphs, slots};
ghost use Rattle.plan.specs.Image.{size};
ghost use Rattle.plan.specs.Valid.{allowed, may_flip, quiet};
ghost use Rattle.behind.specs.Behind.{absent, has_entries, kind_shown};
ghost use Rattle.retrace.specs.Code.Shown.{chapter_of, row_in, shown_at};

use places::{
    CHAPTER_PAGES, CHAPTER_PARAGRAPHS, Console, FLIP_ENTRIES, LOCUTUS_PARAGRAPHS, PAGE_PARAGRAPHS,
    PARAGRAPH_SIZE, PARAGRAPHS,
};
use switches::first_k;

// Whether a chapter has flip entries that PAGE lines could have given, the entry of a page that is not there, and whether plain ROM lies
// beneath the pages.
#[derive(Clone, Copy)]
pub(crate) struct Shown {
    pub paged: bool,
    pub empty: u16,
    pub under: bool,
}

// Chapters that may have pages.
#[tactic(auto, unfolding(plan::specs::Valid::may_flip))]
fn may_flip(x: usize) -> bool
    ensures { result ≡ may_flip x }
{
    x == 2 || 4 <= x
}

// The row has flip entries that PAGE lines could have given.
fn is_paged(flips: &[u16; FLIP_ENTRIES], x: usize) -> bool
    requires { x < chapters }
    ensures { result ≡ has_entries x (row_in flips.now x) }
{
    may_flip(x) && (0..CHAPTER_PAGES).any(|y| flips[CHAPTER_PAGES * x + y] != 0)
}

// The entry of a page that is not there, where the chapter's Locutus pages start at b.
fn empty_entry(flips: &[u16; FLIP_ENTRIES], x: usize, b: usize) -> u16
    requires { (x < chapters) × (b ≤ slots) }
    ensures { result ≡ absent (row_in flips.now x) b }
{
    if (0..CHAPTER_PAGES).any(|y| flips[CHAPTER_PAGES * x + y] == 8) {
        8
    } else {
        (PAGE_PARAGRAPHS * b + 9) as u16
    }
}

// Plain ROM lies beneath the pages: the entry is not 8, and paragraph 8 of Locutus page b is named.
fn is_under(marks: &[bool; LOCUTUS_PARAGRAPHS], empty: u16, b: usize) -> bool
    requires { b ≤ slots }
    ensures { result ≡ (not (eqb empty 8) && get_or marks.now (page_paragraphs * b + 8) false) }
{
    empty != 8 && marks.get(PAGE_PARAGRAPHS * b + 8).copied().unwrap_or(false)
}

pub(crate) fn row_at(
    flips: &[u16; FLIP_ENTRIES],
    marks: &[bool; LOCUTUS_PARAGRAPHS],
    x: usize,
    b: usize,
) -> Shown
    requires { (x < chapters) × (b ≤ slots) }
    ensures { result ≡ shown_at flips.now marks.now x b }
{
    let empty = empty_entry(flips, x, b);
    Shown {
        paged: is_paged(flips, x),
        empty,
        under: is_under(marks, empty, b),
    }
}

// Reads of paragraph p are silent.
fn is_quiet(p: usize) -> bool
    requires { p < paragraphs }
    ensures { result ≡ quiet p }
{
    cart::is_silent(Console((PARAGRAPH_SIZE * p) as u16))
}

// Paragraph p may be of this kind.
#[tactic(auto, unfolding(plan::specs::Valid::allowed))]
fn is_allowed(p: usize, n: u8) -> bool
    requires { p < paragraphs }
    ensures { result ≡ allowed p n }
{
    n == 0 || !is_quiet(p) && matches!(n, 1 | 3 | 7)
}

// The kind that a permission shows at paragraph p.
fn kind_shown(p: usize, n: u8) -> u8
    requires { p < paragraphs }
    ensures { result ≡ kind_shown p n }
{
    if is_allowed(p, n) { n } else { 0 }
}

// The kind of paragraph k of chapter x, and whether it has page y.
pub(crate) fn kind_of(permissions: &[u8; PARAGRAPHS], s: Shown, x: usize, k: usize) -> u8
    requires { (x < chapters) × (k < chapter_paragraphs) }
    ensures { result ≡ (chapter_of permissions.now permissions.now s x).kind k }
{
    if s.paged && first_k(x) <= k {
        return u8::from(s.under);
    }
    let p = CHAPTER_PARAGRAPHS * x + k;
    kind_shown(p, permissions[p])
}

pub(crate) fn page_of(flips: &[u16; FLIP_ENTRIES], s: Shown, x: usize, y: usize) -> bool
    requires { (x < chapters) × (y < chapter_pages) }
    ensures { result ≡ (chapter_of flips.now flips.now s x).page y }
{
    s.paged && flips[CHAPTER_PAGES * x + y] != s.empty
}

// The Locutus pages of the chapter.
pub(crate) fn size_of(
    permissions: &[u8; PARAGRAPHS],
    flips: &[u16; FLIP_ENTRIES],
    s: Shown,
    x: usize,
) -> usize
    requires { x < chapters }
    ensures { (result ≡ size (chapter_of permissions.now flips.now s x)) × (result ≤ layers) }
{
    let plain = (0..CHAPTER_PARAGRAPHS).any(|k| kind_of(permissions, s, x, k) != 0);
    let pages = (0..CHAPTER_PAGES)
        .filter(|&y| page_of(flips, s, x, y))
        .count();
    usize::from(plain) + pages
}

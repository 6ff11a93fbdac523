// The plan behind an image (02, W-213), in two arrays: from its permissions, its flip entries, and the Locutus paragraphs that it names.
#![tactic(auto)]

mod named;
mod row;

ghost use Rattle.std.specs.Prelude.{◌≡◌};
ghost use Rattle.basics.specs.Tables.{table};
ghost use Rattle.places.specs.Limits.{chapters, flip_entries, paragraphs};
ghost use Rattle.plan.specs.Plan.{has_page, kinds};
ghost use Rattle.retrace.specs.Code.Shown.{plan_from, shown_behind, sketch_of};

use ledger::Sketch;
pub use named::marks_of;
use places::{
    CHAPTER_PAGES, CHAPTER_PARAGRAPHS, CHAPTERS, FLIP_ENTRIES, LOCUTUS_PARAGRAPHS, PARAGRAPHS,
};
use row::{Shown, kind_of, page_of, row_at, size_of};
use std::array;

// What each chapter's row of flip entries shows: each behind the Locutus pages of those before it.
fn rows_of(
    permissions: &[u8; PARAGRAPHS],
    flips: &[u16; FLIP_ENTRIES],
    marks: &[bool; LOCUTUS_PARAGRAPHS],
) -> [Shown; CHAPTERS]
    ensures { result ≡ table chapters (shown_behind permissions.now flips.now marks.now) }
{
    let blank = Shown {
        paged: false,
        empty: 0,
        under: false,
    };
    let mut rows = [blank; CHAPTERS];
    let mut b = 0;
    for x in 0..CHAPTERS {
        let s = row_at(flips, marks, x, b);
        rows[x] = s;
        b += size_of(permissions, flips, s, x);
    }
    rows
}

// The kinds of all paragraphs, and the pages of all chapters.
fn kinds_of(
    permissions: &[u8; PARAGRAPHS],
    flips: &[u16; FLIP_ENTRIES],
    marks: &[bool; LOCUTUS_PARAGRAPHS],
    rows: [Shown; CHAPTERS],
) -> [u8; PARAGRAPHS]
    requires { rows ≡ table chapters (shown_behind permissions.now flips.now marks.now) }
    ensures { result ≡ table paragraphs (kinds (plan_from permissions.now flips.now marks.now)) }
{
    array::from_fn(|p| {
        let x = p / CHAPTER_PARAGRAPHS;
        kind_of(permissions, rows[x], x, p % CHAPTER_PARAGRAPHS)
    })
}

fn pages_of(
    permissions: &[u8; PARAGRAPHS],
    flips: &[u16; FLIP_ENTRIES],
    marks: &[bool; LOCUTUS_PARAGRAPHS],
    rows: [Shown; CHAPTERS],
) -> [bool; FLIP_ENTRIES]
    requires { rows ≡ table chapters (shown_behind permissions.now flips.now marks.now) }
    ensures { result ≡ table flip_entries (has_page (plan_from permissions.now flips.now marks.now)) }
{
    array::from_fn(|n| {
        let x = n / CHAPTER_PAGES;
        page_of(flips, rows[x], x, n % CHAPTER_PAGES)
    })
}

// The plan behind these permissions and flip entries, where the marked Locutus paragraphs are named.
pub fn plan_behind(
    permissions: &[u8; PARAGRAPHS],
    flips: &[u16; FLIP_ENTRIES],
    marks: &[bool; LOCUTUS_PARAGRAPHS],
) -> Sketch
    ensures { result ≡ sketch_of (plan_from permissions.now flips.now marks.now) }
{
    let rows = rows_of(permissions, flips, marks);
    Sketch {
        kinds: kinds_of(permissions, flips, marks, rows),
        pages: pages_of(permissions, flips, marks, rows),
    }
}

// Rule 28: what the owners of its pages and the kinds of its paragraphs say of each chapter.
ghost use Rattle.std.specs.Prelude.{◌<◌, ◌≡◌};
ghost use Rattle.basics.specs.Tables.{table};
ghost use Rattle.basics.specs.Refusals.{refuse, first_refusal, passed};
ghost use Rattle.places.specs.Limits.{chapters, paragraphs};
ghost use Rattle.rules.specs.Chapters.{kind_at};
ghost use Rattle.rules.specs.Code.Chapters.{paged_in, all_in, breaks_in};

use basics::{Refusal, refuse};
use lines::Line;
use places::{CHAPTER_PAGES, CHAPTER_PARAGRAPHS, CHAPTERS, FLIP_ENTRIES, PARAGRAPHS};

// The kind of each plain paragraph: claimed as its owner is.
pub(crate) fn kinds_of(lines: &[Line]) -> [u32; PARAGRAPHS]
    ensures { result ≡ table paragraphs (kind_at lines.now) }
{
    let mut kinds = [0; PARAGRAPHS];
    for l in lines {
        kinds = owners::claim_paragraphs(&kinds, l.entry, u32::from(lines::kind_of(l.entry)));
    }
    kinds
}

// Whether chapter x has PAGE lines.
fn is_paged(pages: &[u32; FLIP_ENTRIES], x: usize) -> bool
    requires { x < chapters }
    ensures { result ≡ paged_in pages.now x }
{
    for y in 0..CHAPTER_PAGES {
        if pages[CHAPTER_PAGES * x + y] != 0 {
            return true;
        }
    }
    false
}

// Whether the flippable range of chapter x is all of a kind.
fn is_all(kinds: &[u32; PARAGRAPHS], x: usize, kind: u32) -> bool
    requires { x < chapters }
    ensures { result ≡ all_in kinds.now x kind }
{
    for k in switches::first_k(x)..CHAPTER_PARAGRAPHS {
        if kinds[CHAPTER_PARAGRAPHS * x + k] != kind {
            return false;
        }
    }
    true
}

#[tactic(auto, unfolding(crate::specs::Code::Chapters::breaks_in))]
fn breaks_plain(pages: &[u32; FLIP_ENTRIES], kinds: &[u32; PARAGRAPHS], x: usize) -> bool
    requires { x < chapters }
    ensures { result ≡ breaks_in pages.now kinds.now x }
{
    is_paged(pages, x) && !(is_all(kinds, x, 1) || is_all(kinds, x, 0))
}

// 28, the lowest chapter.
pub(crate) fn first_broken(
    pages: &[u32; FLIP_ENTRIES],
    kinds: &[u32; PARAGRAPHS],
) -> Result<(), Refusal>
    ensures { result ≡ passed (first_refusal (table chapters (λ x. (breaks_in pages.now kinds.now x, refuse 28 x)))) }
{
    for x in 0..CHAPTERS {
        if breaks_plain(pages, kinds, x) {
            return Err(refuse(28, x));
        }
    }
    Ok(())
}

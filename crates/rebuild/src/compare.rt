// What is compared: named words with the paragraphs that a drawing covers, RAM with zeros.
ghost use Rattle.std.specs.Prelude.{◌<◌, ◌≡◌, ◌||◌, cond, not};
ghost use Rattle.basics.specs.Tables.{table};
ghost use Rattle.places.specs.Limits.{flip_entries, locutus_paragraphs, paragraphs};
ghost use Rattle.plan.specs.Image.{ram_covered_of};
ghost use Rattle.canon.specs.Made.{blank_in};
ghost use Rattle.ledger.specs.Held.{sketched, words_in};
ghost use Rattle.retrace.specs.Code.Named.{named_in, word_named};
ghost use Rattle.rebuild.specs.Fits.{agree, ram_fits};
ghost use Rattle.rebuild.specs.Code.Retraced.{marks_fit, unnamed_in};

use ledger::{Sketch, word_of};
use places::{LOCUTUS_PARAGRAPHS, PARAGRAPH_SIZE};

// No word of paragraph p is named: two RAMs hold none alike.
fn is_unnamed(zeros: &[u16], ones: &[u16], p: usize) -> bool
    requires { p < locutus_paragraphs }
    ensures { result ≡ unnamed_in zeros.now ones.now p }
{
    let mut unnamed = true;
    for i in 0..PARAGRAPH_SIZE {
        let at = PARAGRAPH_SIZE * p + i;
        unnamed = (word_of(zeros, at) != word_of(ones, at)) & unnamed;
    }
    unnamed
}

// The words that are named are those of the drawn paragraphs, where it is known which paragraphs are named: a paragraph that is drawn is named, whole;
// of any other no word is.
pub(crate) fn names_fit(
    zeros: &[u16],
    ones: &[u16],
    named: &[bool; LOCUTUS_PARAGRAPHS],
    drawn: &[bool; LOCUTUS_PARAGRAPHS],
) -> bool
    requires { named.now ≡ table locutus_paragraphs (named_in zeros.now ones.now) }
    ensures { result ≡ marks_fit drawn.now (word_named zeros.now ones.now) }
{
    (0..LOCUTUS_PARAGRAPHS).all(|p| {
        if drawn[p] {
            named[p]
        } else {
            is_unnamed(zeros, ones, p)
        }
    })
}

// The words of paragraph p are zeros.
fn is_blank(ram: &[u16], p: usize) -> bool
    requires { p < locutus_paragraphs }
    ensures { result ≡ blank_in (words_in ram.now) p }
{
    let mut blank = true;
    for i in 0..PARAGRAPH_SIZE {
        blank = (word_of(ram, PARAGRAPH_SIZE * p + i) == 0) & blank;
    }
    blank
}

// The plan's RAM is all zeros: a paragraph is not the plan's RAM, or it is blank.
pub(crate) fn ram_fits(s: &Sketch, ram: &[u16]) -> bool
    ensures { result ≡ ram_fits (sketched s.now) (words_in ram.now) }
{
    (0..LOCUTUS_PARAGRAPHS).all(|p| !s.holds_ram(p) || is_blank(ram, p))
}

// Which Locutus paragraphs an image names, by two RAMs that it was loaded into: a word is named where both hold the same.
ghost use Rattle.std.specs.Prelude.{◌≡◌, ◌<◌};
ghost use Rattle.basics.specs.Tables.{table};
ghost use Rattle.places.specs.Limits.{locutus_paragraphs};
ghost use Rattle.retrace.specs.Code.Named.{named_in};

use ledger::word_of;
use places::{LOCUTUS_PARAGRAPHS, PARAGRAPH_SIZE};
use std::array;

// All words of paragraph p are named. Each is looked at, here and in `rebuild::is_unnamed` and `is_blank`: a way out at the first that differs keeps the
// compiler from comparing several at once.
fn is_named(zeros: &[u16], ones: &[u16], p: usize) -> bool
    requires { p < locutus_paragraphs }
    ensures { result ≡ named_in zeros.now ones.now p }
{
    let mut named = true;
    for i in 0..PARAGRAPH_SIZE {
        let at = PARAGRAPH_SIZE * p + i;
        named = (word_of(zeros, at) == word_of(ones, at)) & named;
    }
    named
}

// A mark for each Locutus paragraph that is named.
pub fn marks_of(zeros: &[u16], ones: &[u16]) -> [bool; LOCUTUS_PARAGRAPHS]
    ensures { result ≡ table locutus_paragraphs (named_in zeros.now ones.now) }
{
    array::from_fn(|p| is_named(zeros, ones, p))
}

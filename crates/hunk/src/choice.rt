// The form of a data block: the smallest that can carry its words (02, W-207). One pass over the words finds the largest but the last;
// the rest goes by that number and how many words there are.
ghost use Rattle.std.specs.Prelude.{◌≤◌, ◌<◌, ◌≡◌, length};
ghost use Rattle.hunk.specs.Forms.{most_for};
ghost use Rattle.hunk.specs.Smallest.{largest, can_hold, carries, smaller, form_for};

use crate::Form;
use crate::forms::size_of;

// The largest of the first n words.
fn largest_of(words: &[u16], n: usize) -> u16
    requires { n ≤ length words.now }
    ensures { result ≡ largest n words.now }
{
    words[..n].iter().fold(0, |top, &w| top.max(w))
}

// A word that a form can hold before its last one.
fn can_hold(f: Form, w: u16) -> bool
    ensures { result ≡ can_hold f w }
{
    match f {
        Form::Bytes => w < 0x100,
        Form::Decles => w < 0x400,
        Form::Words => true,
        Form::Reserved => false,
    }
}

// The most words that a form's start bytes can count.
fn most_of(f: Form) -> usize
    ensures { result ≡ most_for f }
{
    match f {
        Form::Bytes => 0x3F,
        Form::Decles => 0xBF - 0x3F,
        Form::Words => 0xFD - 0xBF,
        Form::Reserved => 0,
    }
}

fn can_carry(f: Form, n: usize, top: u16) -> bool
    ensures { result ≡ carries f n top }
{
    (1..=most_of(f)).contains(&n) && can_hold(f, top)
}

// Of two forms the first, where it can carry the words and the second cannot or takes no fewer bytes.
fn smaller_of(f: Form, g: Form, n: usize, top: u16) -> Form
    requires { n < 256 }
    ensures { result ≡ smaller f g n top }
{
    let no_longer = size_of(f, n) <= size_of(g, n);
    if can_carry(f, n, top) && (!can_carry(g, n, top) || no_longer) {
        f
    } else {
        g
    }
}

// On a tie 16-bit before 10-bit before 8-bit.
pub(crate) fn form_for(words: &[u16]) -> Form
    requires { (1 ≤ length words.now) × (length words.now < 256) }
    ensures { result ≡ form_for words.now }
{
    let n = words.len();
    let top = largest_of(words, n - 1);
    let narrow = smaller_of(Form::Decles, Form::Bytes, n, top);
    smaller_of(Form::Words, narrow, n, top)
}

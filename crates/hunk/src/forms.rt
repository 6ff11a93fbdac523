// What the start byte of a data block says (001, "Start byte", Reserved Encodings).
ghost use Rattle.std.specs.Prelude.{◌<◌, ◌≤◌, ◌≡◌};
ghost use Rattle.hunk.specs.Forms.{form_of, count_for, start_for, most_for, size_for};

use crate::Form;

pub(crate) fn form_of(b: usize) -> Form
    ensures { result ≡ form_of b }
{
    if b == 0x00 {
        return Form::Reserved;
    }
    if b < 0x40 {
        return Form::Bytes;
    }
    if b < 0xC0 {
        return Form::Decles;
    }
    if b < 0xFE {
        return Form::Words;
    }
    Form::Reserved
}

// The number of words, by the start byte.
pub(crate) fn count_of(f: Form, b: usize) -> usize
    requires { f ≡ form_of b }
    ensures { result ≡ count_for f b }
{
    match f {
        Form::Bytes => b,
        Form::Decles => b - 0x3F,
        Form::Words => b - 0xBF,
        Form::Reserved => 0,
    }
}

// The start byte, by the number of words.
pub(crate) fn start_of(f: Form, n: usize) -> u8
    requires { n ≤ most_for f }
    ensures { result ≡ start_for f n }
{
    match f {
        Form::Bytes => n as u8,
        Form::Decles => (0x3F + n) as u8,
        Form::Words => (0xBF + n) as u8,
        Form::Reserved => 0,
    }
}

// The number of bytes, by the number of words.
pub(crate) fn size_of(f: Form, n: usize) -> usize
    requires { n < 256 }
    ensures { result ≡ size_for f n }
{
    match f {
        Form::Bytes => 2 + n,
        Form::Decles => 2 + (n + 2) / 4 + n,
        Form::Words => 1 + 2 * n,
        Form::Reserved => 0,
    }
}

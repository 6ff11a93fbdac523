// Products, quotients and remainders of words, by sign and size (000, "JLP Multiply and Divide Accelerators").
ghost use Rattle.std.specs.Prelude.{◌<◌, ◌≡◌};
ghost use Rattle.jlp.specs.Arith.{word_values, long_values, number_of, word_of, unlike, product_of, multiplied, quotient_of, divided};

use crate::Results;

// A number by its sign and its size. It is no signed integer, since the promises of `number_of`, `product` and `quotient` name the sign and the size.
#[derive(Clone, Copy)]
pub(crate) struct Number {
    negative: bool,
    size: u16,
}

// The number that a word stands for, signed or not.
fn number_of(signed: bool, w: u16) -> Number
    ensures { result ≡ number_of signed w }
{
    if signed && 0x8000 <= w {
        return Number {
            negative: true,
            size: w.wrapping_neg(),
        };
    }
    Number {
        negative: false,
        size: w,
    }
}

// Returns a number of this sign and size in 16 bits.
fn word16(negative: bool, size: u16) -> u16
    ensures { result ≡ word_of word_values negative size }
{
    if negative { size.wrapping_neg() } else { size }
}

fn product(a: Number, b: Number) -> u32
    ensures { result ≡ product_of a b }
{
    let size = a.size as u32 * b.size as u32;
    if a.negative != b.negative {
        size.wrapping_neg()
    } else {
        size
    }
}

// A product of 32 bits, each factor signed or not.
pub fn multiply(signed_a: bool, signed_b: bool, a: u16, b: u16) -> Results
    ensures { result ≡ multiplied signed_a signed_b a b }
{
    let p = product(number_of(signed_a, a), number_of(signed_b, b));
    Results {
        first: (p % 0x1_0000) as u16,
        second: (p / 0x1_0000) as u16,
    }
}

fn quotient(a: Number, b: Number) -> Results
    requires { 0 < b.size }
    ensures { result ≡ quotient_of a b }
{
    Results {
        first: word16(a.negative != b.negative, a.size / b.size),
        second: word16(a.negative, a.size % b.size),
    }
}

// Quotient, toward zero, and remainder; divisor 0 leaves the results as they were.
pub fn divide(signed: bool, a: u16, b: u16, old: Results) -> Results
    ensures { result ≡ divided signed a b old }
{
    if b == 0 {
        return old;
    }
    quotient(number_of(signed, a), number_of(signed, b))
}

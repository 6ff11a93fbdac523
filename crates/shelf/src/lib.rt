// A text as a shelf label shows it: no byte of it that a screen would act on (02, "W-204").
#![tactic(auto)]

ghost use Rattle.std.specs.Prelude.{◌*◌, ◌≤◌, ◌≡◌, ◌++◌, length, drop};
ghost use Rattle.basics.specs.Lists.{put_front};
ghost use Rattle.shelf.specs.Escaped.{by_digits, escaped_byte, escaped, escaped_length, escaped_in};

const BACKSLASH: u8 = 92;

const LETTER_X: u8 = 120;

// The bytes that a label shows as they stand, the backslash apart.
const FIRST_SHOWN: u8 = 0x20;

const LAST_SHOWN: u8 = 0x7E;

// The most bytes that one byte is shown by.
const WIDEST: usize = 4;

// A byte by its two digits.
fn by_digits(b: u8) -> [u8; 4]
    ensures { result ≡ by_digits b }
{
    [
        BACKSLASH,
        LETTER_X,
        text::upper_digit(u32::from(b) / 16),
        text::upper_digit(u32::from(b)),
    ]
}

// What a byte is shown by, at the front of a part with room for it; answers how many bytes those are.
fn put_byte(out: &mut [u8], b: u8) -> usize
    ensures { (result ≡ length (escaped_byte b)) × (out.new ≡ put_front (escaped_byte b) out.old) }
{
    if b == BACKSLASH {
        basics::put_bytes(out, &[BACKSLASH, BACKSLASH]);
        return 2;
    }
    if (FIRST_SHOWN..=LAST_SHOWN).contains(&b) {
        basics::put_bytes(out, &[b]);
        return 1;
    }
    basics::put_bytes(out, &by_digits(b));
    4
}

// A text, shown at the front of a buffer with room for four bytes of each of its own.
fn put_text(out: &mut [u8], text: &[u8]) -> usize
    requires { 4 * length text.now ≤ length out.old }
    ensures { (result ≡ length (escaped text.now)) × (out.new ≡ escaped text.now ++ drop (length (escaped text.now)) out.old) }
{
    let mut k = 0;
    for &b in text {
        k += put_byte(&mut out[k..], b);
    }
    k
}

// A text as a label shows it, at the front of a buffer; answers its length. Where the buffer has not four bytes of room for each of the
// text's, nothing is written, and the answer is 0.
pub fn escape(out: &mut [u8], text: &[u8]) -> usize
    ensures { (result ≡ escaped_length out.old text.now) × (out.new ≡ escaped_in out.old text.now) }
{
    if out.len() / WIDEST < text.len() {
        return 0;
    }
    put_text(out, text)
}

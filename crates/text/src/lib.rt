// Texts: the bytes that may stand in one, its lines, its spelling, and hex digits. A CFG is one (01, "What a CFG may say").
#![tactic(auto)]

ghost use Rattle.std.specs.Prelude.{◌%◌, ◌≤◌, ◌≡◌};
ghost use Rattle.text.specs.Bytes.{cr_lf, allowed, first_foreign};
ghost use Rattle.text.specs.Lines.{line_of, ends, line_end, past_end, next_line};
ghost use Rattle.text.specs.Spelling.{same, digit_of, upper_digit};

// A reader: a text, and the place in it where the next line starts. A loop that reads line by line holds one, tests it and
// moves it on to `next_line`.
#[derive(Clone, Copy)]
pub struct Reader<'a> {
    pub text: &'a [u8],
    pub at: usize,
}

// Whether a byte and the next are CR LF; `next` is 0 where the text ends.
pub fn is_cr_lf(b: u8, next: u8) -> bool
    ensures { result ≡ cr_lf b next }
{
    b == b'\r' && next == b'\n'
}

// Whether a byte may stand in a text, with `next` behind it.
pub fn is_allowed(b: u8, next: u8) -> bool
    ensures { result ≡ allowed b next }
{
    (0x20..=0x7E).contains(&b) || b == b'\t' || b == b'\n' || is_cr_lf(b, next)
}

// The place of the first byte that may not stand where it does, or the text's length.
pub fn first_foreign(text: &[u8]) -> usize
    ensures { result ≡ first_foreign text.now }
{
    for i in 0..text.len() {
        if !is_allowed(text[i], basics::byte_at(text, i + 1)) {
            return i;
        }
    }
    text.len()
}

// The number of the line that a byte stands on, from 1.
pub fn line_of(text: &[u8], at: usize) -> usize
    ensures { result ≡ line_of text.now at }
{
    1 + text[..at.min(text.len())]
        .iter()
        .filter(|b| **b == b'\n')
        .count()
}

// Whether a line ends at a byte, with `next` behind it.
pub fn is_end(b: u8, next: u8) -> bool
    ensures { result ≡ ends b next }
{
    b == b'\n' || is_cr_lf(b, next)
}

// The line cutter: where the line that stands at `at` ends.
pub fn line_end(text: &[u8], at: usize) -> usize
    ensures { result ≡ line_end text.now at }
{
    for i in at..text.len() {
        if is_end(text[i], basics::byte_at(text, i + 1)) {
            return i;
        }
    }
    at.max(text.len())
}

// Where the line after one that ends at `end` starts.
pub fn past_end(text: &[u8], end: usize) -> usize
    ensures { result ≡ past_end text.now end }
{
    if text.len() <= end {
        return end;
    }
    if text[end] == b'\n' {
        return end + 1;
    }
    end + 2
}

// Where the line after the one that stands at `at` starts.
pub fn next_line(text: &[u8], at: usize) -> usize
    ensures { result ≡ next_line text.now at }
{
    past_end(text, line_end(text, at))
}

// Whether two texts are the same.
pub fn same_text(s: &[u8], t: &[u8]) -> bool
    ensures { result ≡ same s.now t.now }
{
    s == t
}

// A hex digit's value, in either case; 16 for any other byte. A row for each digit is looked up in a table, and no test is guessed.
pub fn digit_of(b: u8) -> u32
    ensures { (result ≡ digit_of b) × (result ≤ 16) }
{
    match b {
        b'0' => 0,
        b'1' => 1,
        b'2' => 2,
        b'3' => 3,
        b'4' => 4,
        b'5' => 5,
        b'6' => 6,
        b'7' => 7,
        b'8' => 8,
        b'9' => 9,
        b'A' => 10,
        b'B' => 11,
        b'C' => 12,
        b'D' => 13,
        b'E' => 14,
        b'F' => 15,
        b'a' => 10,
        b'b' => 11,
        b'c' => 12,
        b'd' => 13,
        b'e' => 14,
        b'f' => 15,
        _ => 16,
    }
}

// The hex digit of a number's lowest four bits, in upper case.
#[tactic(auto, unfolding(crate::specs::Spelling::upper_digit))]
pub fn upper_digit(n: u32) -> u8
    ensures { result ≡ upper_digit (n % 16) }
{
    let d = (n % 16) as u8;
    if d < 10 {
        return b'0' + d;
    }
    b'A' + (d - 10)
}

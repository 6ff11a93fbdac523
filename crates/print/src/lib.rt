// A CFG as it is written (02, W-213): the line of an entry.
#![tactic(auto)]

ghost use Rattle.std.specs.Prelude.{◌+◌, ◌≤◌, ◌≡◌, ◌%◌, [], drop, length, take};
ghost use Rattle.grammar.specs.Grammar.{rom, paged, ram};
ghost use Rattle.grammar.specs.Print.{entry_text, five_digits};
ghost use Rattle.print.specs.Code.Texts.{padded, pushed, text_of};

use lines::{Entry, Width};
use places::{BinWord, Console, Page};

// The most bytes of a line, its end included, and one more.
pub const TEXT_SIZE: usize = 32;

// A line: its bytes at the front of a buffer, zeros after them, and their number, which stands beside the buffer because the project has no
// heap.
#[derive(Clone, Copy)]
pub struct Text {
    pub bytes: [u8; TEXT_SIZE],
    pub length: usize,
}

impl Text {
    fn new() -> Text
        ensures { result ≡ padded [] }
    {
        Text {
            bytes: [0; TEXT_SIZE],
            length: 0,
        }
    }

    // Adds bytes at the end.
    fn push(&mut self, bytes: &[u8])
        requires { self.old.length + length bytes.now ≤ 32 }
        ensures { self.new ≡ pushed self.old bytes.now }
    {
        let end = self.length + bytes.len();
        self.bytes[self.length..end].copy_from_slice(bytes);
        self.length = end;
    }

    // Returns the bytes of the line.
    pub fn as_bytes(&self) -> &[u8]
        ensures { result.now ≡ take self.now.length self.now.bytes }
    {
        &self.bytes[..self.length.min(TEXT_SIZE)]
    }
}

// Returns the last five hex digits of a number.
fn hex_of(n: u32) -> [u8; 5]
    ensures { result ≡ drop 1 (five_digits n) }
{
    [
        text::upper_digit(n / 65536),
        text::upper_digit(n / 4096),
        text::upper_digit(n / 256),
        text::upper_digit(n / 16),
        text::upper_digit(n),
    ]
}

// Returns `$lo - $hi = $addr`.
fn rom_text(lo: BinWord, hi: BinWord, at: Console) -> Text
    ensures { result ≡ padded (entry_text (rom lo.0 hi.0 at.0)) }
{
    let mut t = Text::new();
    t.push(b"$");
    t.push(&hex_of(lo.0));
    t.push(b" - $");
    t.push(&hex_of(hi.0));
    t.push(b" = $");
    t.push(&hex_of(u32::from(at.0))[1..]);
    t
}

// Returns `$lo - $hi = $addr PAGE d`.
fn paged_text(lo: BinWord, hi: BinWord, at: Console, y: Page) -> Text
    ensures { result ≡ padded (entry_text (paged lo.0 hi.0 at.0 (y.0 % 16))) }
{
    let mut t = rom_text(lo, hi, at);
    t.push(b" PAGE ");
    t.push(&[text::upper_digit(u32::from(y.0))]);
    t
}

// Returns `$lo - $hi = RAM 16` or `$lo - $hi = RAM 8`.
fn ram_text(lo: Console, hi: Console, w: Width) -> Text
    ensures { result ≡ padded (entry_text (ram lo.0 hi.0 w)) }
{
    let mut t = Text::new();
    t.push(b"$");
    t.push(&hex_of(u32::from(lo.0))[1..]);
    t.push(b" - $");
    t.push(&hex_of(u32::from(hi.0))[1..]);
    match w {
        Width::Sixteen => t.push(b" = RAM 16"),
        Width::Eight => t.push(b" = RAM 8"),
    }
    t
}

// Returns the line of an entry. A page's number is one digit.
pub fn text_of(e: Entry) -> Text
    ensures { result ≡ text_of e }
{
    let mut t = match e {
        Entry::Rom(lo, hi, at) => rom_text(lo, hi, at),
        Entry::Paged(lo, hi, at, y) => paged_text(lo, hi, at, y),
        Entry::Ram(lo, hi, w) => ram_text(lo, hi, w),
    };
    t.push(b"\n");
    t
}

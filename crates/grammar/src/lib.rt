// One line of a CFG: its words, and what they say (01, "What a CFG may say").
#![tactic(auto)]

ghost use Rattle.std.specs.Prelude.{◌≤◌, ◌<◌, ◌≡◌, length};
ghost use Rattle.std.specs.Option.{option_map};
ghost use Rattle.places.specs.Places.{bin_word, console, page};
ghost use Rattle.text.specs.Spelling.{same};
ghost use Rattle.grammar.specs.Words.{kind_of, words_of, word};
ghost use Rattle.grammar.specs.Grammar.{hex_of, dollar, one_digit, offset, address, bits, width_of, mapping_line, memattr_line, heading_line, entry_line, line_says};
ghost use Rattle.grammar.specs.Code.Steps.{run_end, same_kind, NextWord, claimed, where_true};

use lines::{Entry, Width};
use places::{BinWord, Console, Page};

// The section that a line stands in.
#[derive(Clone, Copy)]
pub enum Section {
    Nowhere,
    Mapping,
    Memattr,
}

// What a line says: nothing, a section's name, an entry; or it is outside the grammar.
#[derive(Clone, Copy)]
pub enum Says {
    Blank,
    Heading(Section),
    Claims(Entry),
    Outside,
}

// What a byte does to a line's words.
#[derive(Clone, Copy, PartialEq, Eq)]
enum Kind {
    Blank,
    Sign,
    Comment,
    Letter,
}

// The bytes of a line from start to end; none where the two are equal.
#[derive(Clone, Copy)]
struct Word {
    start: usize,
    end: usize,
}

fn kind_of(b: u8) -> Kind
    ensures { result ≡ kind_of b }
{
    match b {
        b' ' | b'\t' => Kind::Blank,
        b'-' | b'=' => Kind::Sign,
        b';' => Kind::Comment,
        _ => Kind::Letter,
    }
}

// The first place from `at` on whose byte is of another kind, or the line's length.
fn run_end(line: &[u8], at: usize, kind: Kind) -> usize
    ensures { result ≡ run_end (same_kind kind) line.now at }
{
    for i in at..line.len() {
        if kind_of(line[i]) != kind {
            return i;
        }
    }
    at.max(line.len())
}

// The first word from `at` on.
fn next_word(line: &[u8], at: usize) -> Word
    requires { at ≤ length line.now }
    ensures { NextWord line.now at result }
{
    let start = run_end(line, at, Kind::Blank);
    if line.len() <= start {
        return Word { start, end: start };
    }
    let end = match kind_of(line[start]) {
        Kind::Sign => start + 1,
        Kind::Letter => run_end(line, start, Kind::Letter),
        Kind::Blank | Kind::Comment => start,
    };
    Word { start, end }
}

// How many words a line has. Each word says where the next one starts, so the loop is no count of places.
fn word_count(line: &[u8]) -> usize
    ensures { result ≡ length (words_of line.now) }
{
    let mut at = 0;
    let mut n = 0;
    while at < line.len() {
        let w = next_word(line, at);
        if w.start == w.end {
            return n;
        }
        at = w.end;
        n += 1;
    }
    n
}

// Word k of a line, found from its start: an entry has seven at most. No bytes where the line has fewer.
fn word_at(line: &[u8], k: usize) -> &[u8]
    ensures { result.now ≡ word (words_of line.now) k }
{
    let mut at = 0;
    for _ in 0..k {
        at = next_word(line, at).end;
    }
    let w = next_word(line, at);
    &line[w.start..w.end]
}

// Whether word k is spelt so.
fn is_word(line: &[u8], k: usize, spelt: &[u8]) -> bool
    ensures { result ≡ same (word (words_of line.now) k) spelt.now }
{
    text::same_text(word_at(line, k), spelt)
}

// The same as a step of the reading, which goes on where word k is spelt so.
fn demand_word(line: &[u8], k: usize, spelt: &[u8]) -> Option<()>
    ensures { result ≡ where_true (same (word (words_of line.now) k) spelt.now) }
{
    is_word(line, k, spelt).then_some(())
}

// The number that a word's bytes say in hex; they are five at most.
fn hex(w: &[u8]) -> Option<u32>
    requires { length w.now ≤ 5 }
    ensures { result ≡ hex_of w.now }
{
    let mut n = 0;
    for b in w {
        let d = text::digit_of(*b);
        if d == 16 {
            return None;
        }
        n = n * 16 + d;
    }
    Some(n)
}

// The number that `$` and 1 to `most` hex digits say.
fn dollar_word(w: &[u8], most: usize) -> Option<u32>
    requires { most ≤ 5 }
    ensures { result ≡ dollar most w.now }
{
    let (first, digits) = w.split_first()?;
    let long = digits.len();
    if *first != b'$' || long == 0 || most < long {
        return None;
    }
    hex(digits)
}

// Word k as an offset in the BIN, as an address, as a page number (one hex digit), and as the width of RAM.
fn offset_at(line: &[u8], k: usize) -> Option<BinWord>
    ensures { result ≡ option_map bin_word (offset (word (words_of line.now) k)) }
{
    Some(BinWord(dollar_word(word_at(line, k), 5)?))
}

fn address_at(line: &[u8], k: usize) -> Option<Console>
    ensures { result ≡ option_map console (address (word (words_of line.now) k)) }
{
    Some(Console(dollar_word(word_at(line, k), 4)? as u16))
}

fn page_at(line: &[u8], k: usize) -> Option<Page>
    ensures { result ≡ option_map page (one_digit (word (words_of line.now) k)) }
{
    let w = word_at(line, k);
    if w.len() != 1 {
        return None;
    }
    Some(Page(hex(w)? as u8))
}

#[tactic(auto, unfolding(crate::specs::Grammar::bits))]
fn width_at(line: &[u8], k: usize) -> Option<Width>
    ensures { result ≡ option_map width_of (bits (word (words_of line.now) k)) }
{
    if is_word(line, k, b"16") {
        return Some(Width::Sixteen);
    }
    if is_word(line, k, b"8") {
        return Some(Width::Eight);
    }
    None
}

// An entry of [mapping]: `$lo - $hi = $addr`, or seven words with ` PAGE d` behind.
fn mapping_line(line: &[u8]) -> Option<Entry>
    ensures { claimed result ≡ mapping_line (words_of line.now) }
{
    let n = word_count(line);
    if n != 5 && n != 7 {
        return None;
    }
    let lo = offset_at(line, 0)?;
    demand_word(line, 1, b"-")?;
    let hi = offset_at(line, 2)?;
    demand_word(line, 3, b"=")?;
    let at = address_at(line, 4)?;
    if n == 5 {
        return Some(Entry::Rom(lo, hi, at));
    }
    demand_word(line, 5, b"PAGE")?;
    Some(Entry::Paged(lo, hi, at, page_at(line, 6)?))
}

// An entry of [memattr]: `$lo - $hi = RAM 16` or `RAM 8`.
fn memattr_line(line: &[u8]) -> Option<Entry>
    ensures { claimed result ≡ memattr_line (words_of line.now) }
{
    if word_count(line) != 6 {
        return None;
    }
    let lo = address_at(line, 0)?;
    demand_word(line, 1, b"-")?;
    let hi = address_at(line, 2)?;
    demand_word(line, 3, b"=")?;
    demand_word(line, 4, b"RAM")?;
    Some(Entry::Ram(lo, hi, width_at(line, 5)?))
}

// A section's name.
#[tactic(auto, unfolding(crate::specs::Grammar::heading_line))]
fn heading_line(w: &[u8]) -> Says
    ensures { result ≡ heading_line w.now }
{
    if text::same_text(w, b"[mapping]") {
        return Says::Heading(Section::Mapping);
    }
    if text::same_text(w, b"[memattr]") {
        return Says::Heading(Section::Memattr);
    }
    Says::Outside
}

// An entry by its section, where the line is one.
fn entry_line(line: &[u8], section: Section) -> Option<Entry>
    ensures { claimed result ≡ entry_line section (words_of line.now) }
{
    match section {
        Section::Nowhere => None,
        Section::Mapping => mapping_line(line),
        Section::Memattr => memattr_line(line),
    }
}

// What a line says in a section.
pub fn read_line(line: &[u8], section: Section) -> Says
    ensures { result ≡ line_says section line.now }
{
    match word_count(line) {
        0 => Says::Blank,
        1 => heading_line(word_at(line, 0)),
        _ => match entry_line(line, section) {
            Some(e) => Says::Claims(e),
            None => Says::Outside,
        },
    }
}

// A CFG is read: its entries, or refusal 22, 23 or 24 with its line (01, "What a CFG may say").
#![tactic(auto)]

ghost use Rattle.std.specs.Prelude.{◌≤◌, ◌<◌, ◌≡◌, [], length, take, set};
ghost use Rattle.places.specs.Limits.{cfg_limit};
ghost use Rattle.cfg.specs.File.{says_of, shown, reading_of, lines_or};
ghost use Rattle.cfg.specs.Code.Steps.{scan_of, onward, in_section, with_entry, with_outside, noted, noted_line, judged};

use basics::{Refusal, refuse};
use grammar::{Says, Section};
use lines::{Entry, Line};
use places::{BinWord, CFG_LIMIT, Console, LINE_LIMIT};
use text::Reader;

// The entries of a CFG, at the front of as many places as it may have. Their number stands beside the array, here and in `Scan`, because the
// project has no heap.
#[derive(Clone, Copy)]
pub struct Lines {
    pub count: usize,
    pub lines: [Line; LINE_LIMIT],
}

impl Lines {
    pub fn entries(&self) -> &[Line]
        ensures { result.now ≡ take self.now.count self.now.lines }
    {
        &self.lines[..self.count.min(LINE_LIMIT)]
    }
}

// What the lines so far say: the number of the last, the section they end in, the first line outside the grammar, the line of
// the first entry past the limit, and the entries.
#[derive(Clone, Copy)]
struct Scan {
    line: u32,
    section: Section,
    outside: Option<u32>,
    extra: Option<u32>,
    count: usize,
    lines: [Line; LINE_LIMIT],
}

fn blank_lines() -> [Line; LINE_LIMIT]
    ensures { result ≡ shown [] }
{
    let blank = Line {
        source: 0,
        entry: Entry::Rom(BinWord(0), BinWord(0), Console(0)),
    };
    [blank; LINE_LIMIT]
}

// The lines with `e` at `at`, where there is such a place.
fn store(mut lines: [Line; LINE_LIMIT], at: usize, e: Line) -> [Line; LINE_LIMIT]
    ensures { result ≡ set lines at e }
{
    if at < LINE_LIMIT {
        lines[at] = e;
    }
    lines
}

#[tactic(auto, unfolding(crate::specs::File::outside_from, crate::specs::File::entries_from, crate::specs::Code::Steps::section_from))]
fn start() -> Scan
    ensures { result ≡ scan_of [] }
{
    Scan {
        line: 0,
        section: Section::Nowhere,
        outside: None,
        extra: None,
        count: 0,
        lines: blank_lines(),
    }
}

// The next line's number.
fn next(st: Scan) -> Scan
    requires { st.line < cfg_limit }
    ensures { result ≡ onward st }
{
    Scan {
        line: st.line + 1,
        ..st
    }
}

fn in_section(st: Scan, s: Section) -> Scan
    ensures { result ≡ in_section st s }
{
    Scan { section: s, ..st }
}

fn with_entry(st: Scan, e: Entry) -> Scan
    requires { st.count < cfg_limit }
    ensures { result ≡ with_entry st e }
{
    let l = Line {
        source: st.line,
        entry: e,
    };
    Scan {
        extra: if st.count == LINE_LIMIT {
            Some(st.line)
        } else {
            st.extra
        },
        count: st.count + 1,
        lines: store(st.lines, st.count, l),
        ..st
    }
}

fn with_outside(st: Scan) -> Scan
    ensures { result ≡ with_outside st }
{
    Scan {
        outside: st.outside.or(Some(st.line)),
        ..st
    }
}

// What the line just counted adds.
fn note(st: Scan, says: Says) -> Scan
    requires { st.count < cfg_limit }
    ensures { result ≡ noted st says }
{
    match says {
        Says::Blank => st,
        Says::Heading(s) => in_section(st, s),
        Says::Claims(e) => with_entry(st, e),
        Says::Outside => with_outside(st),
    }
}

// What the line adds that stands at `at`.
fn note_line(st: Scan, text: &[u8], at: usize) -> Scan
    requires { (st.line < cfg_limit) × (st.count < cfg_limit) × (at ≤ length text.now) }
    ensures { result ≡ noted_line st text.now at }
{
    let end = text::line_end(text, at);
    let says = grammar::read_line(&text[at..end], st.section);
    note(next(st), says)
}

// What all lines of a CFG say. The loop holds the reader; what a turn does is done by functions that take the text and the place.
fn scan_lines(cfg: &[u8]) -> Scan
    requires { length cfg.now ≤ cfg_limit }
    ensures { result ≡ scan_of (says_of cfg.now) }
{
    let mut st = start();
    let mut r = Reader { text: cfg, at: 0 };
    while r.at < r.text.len() {
        st = note_line(st, r.text, r.at);
        r.at = text::next_line(r.text, r.at);
    }
    st
}

// Refusals 23 and 24.
fn judge(st: Scan) -> Result<Lines, Refusal>
    ensures { result ≡ lines_or (judged st) }
{
    if let Some(line) = st.outside {
        return Err(refuse(23, line as usize));
    }
    if st.count == 0 {
        return Err(refuse(24, 0));
    }
    if let Some(line) = st.extra {
        return Err(refuse(24, line as usize));
    }
    // The check does not cover an array's field that goes straight into a literal.
    let lines = st.lines;
    Ok(Lines {
        count: st.count,
        lines,
    })
}

// The entries of a CFG, or why it is refused.
pub fn read_cfg(cfg: &[u8]) -> Result<Lines, Refusal>
    ensures { result ≡ lines_or (reading_of cfg.now) }
{
    if CFG_LIMIT < cfg.len() {
        return Err(refuse(22, 0));
    }
    let at = text::first_foreign(cfg);
    if at < cfg.len() {
        return Err(refuse(22, text::line_of(cfg, at)));
    }
    judge(scan_lines(cfg))
}

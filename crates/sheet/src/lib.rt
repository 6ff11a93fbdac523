// A CFG as it is written (02, W-213): the lines of its sections, one after the other, on a sheet.
#![tactic(auto)]

ghost use Rattle.std.specs.Prelude.{◌+◌, ◌*◌, ◌≤◌, ◌≡◌, length, take};
ghost use Rattle.basics.specs.Lists.{put_front};
ghost use Rattle.places.specs.Limits.{line_limit};
ghost use Rattle.sheet.specs.Code.Sheets.{both_headed, lines_bytes, headed, sheet_of, cfg_lines};

use basics::put_bytes;
use lines::Line;
use places::LINE_LIMIT;

// The most bytes of a written CFG, and some more: two names, and 128 lines.
pub const SHEET_SIZE: usize = 4096;

// A written CFG: its bytes at the front of a buffer, zeros after them, and their number, which stands beside the buffer because the project
// has no heap.
// It differs from `print::Text` by its size alone, but theorems of specs/ name both types.
#[derive(Clone, Copy)]
pub struct Sheet {
    pub bytes: [u8; SHEET_SIZE],
    pub length: usize,
}

impl Sheet {
    // Returns the bytes of the CFG.
    pub fn as_bytes(&self) -> &[u8]
        ensures { result.now ≡ take self.now.length self.now.bytes }
    {
        &self.bytes[..self.length.min(SHEET_SIZE)]
    }
}

// Writes the lines of entries at the front of a buffer. Returns how many bytes they are.
fn put_lines(out: &mut [u8], lines: &[Line]) -> usize
    requires { (length lines.now ≤ line_limit) × (31 * length lines.now ≤ length out.old) }
    ensures length { (result ≡ length (lines_bytes lines.now)) × (result ≤ 31 * length lines.now) }
    ensures bytes { out.new ≡ put_front (lines_bytes lines.now) out.old }
{
    let mut at = 0;
    for l in lines {
        let text = print::text_of(l.entry);
        let end = at + text.length;
        out[at..end].copy_from_slice(text.as_bytes());
        at = end;
    }
    at
}

// Writes a section at the front of a buffer: its name, if it has lines, and its lines. Returns how many bytes they are.
fn put_section(out: &mut [u8], name: &[u8; 10], lines: &[Line]) -> usize
    requires { (length lines.now ≤ line_limit) × (10 + 31 * length lines.now ≤ length out.old) }
    ensures length { (result ≡ length (headed name.now lines.now)) × (result ≤ 10 + 31 * length lines.now) }
    ensures bytes { out.new ≡ put_front (headed name.now lines.now) out.old }
{
    if lines.is_empty() {
        return 0;
    }
    put_bytes(out, name);
    10 + put_lines(&mut out[10..], lines)
}

// Writes both sections, one after the other. Returns how many bytes they are.
fn put_sections(out: &mut [u8], mapping: &[Line], memattr: &[Line]) -> usize
    requires { (length mapping.now + length memattr.now ≤ line_limit) × (20 + 31 * (length mapping.now + length memattr.now) ≤ length out.old) }
    ensures length { result ≡ length (both_headed mapping.now memattr.now) }
    ensures bytes { out.new ≡ put_front (both_headed mapping.now memattr.now) out.old }
{
    let a = put_section(out, b"[mapping]\n", mapping);
    a + put_section(&mut out[a..], b"[memattr]\n", memattr)
}

// Returns the CFG of these lines, of which the first are of [mapping]. No CFG has more than LINE_LIMIT lines.
pub fn sheet_of(mapping: usize, lines: &[Line]) -> Sheet
    ensures { result ≡ sheet_of (cfg_lines mapping (length lines.now) lines.now) }
{
    let lines = &lines[..lines.len().min(LINE_LIMIT)];
    let m = mapping.min(lines.len());
    let mut bytes = [0; SHEET_SIZE];
    let length = put_sections(&mut bytes, &lines[..m], &lines[m..]);
    Sheet { bytes, length }
}

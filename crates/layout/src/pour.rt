// The words of each Locutus paragraph, from the BIN or zeros, into a RAM.
ghost use Rattle.std.specs.Prelude.{◌+◌, ◌*◌, ◌≤◌, ◌<◌, ◌≡◌, length};
ghost use Rattle.basics.specs.Tables.{table};
ghost use Rattle.places.specs.Places.{console};
ghost use Rattle.places.specs.Limits.{cells, paragraph_size};
ghost use Rattle.lines.specs.Lines.{first};
ghost use Rattle.lines.specs.Bin.{bin_place};
ghost use Rattle.layout.specs.Layout.{written_by};
ghost use Rattle.layout.specs.Code.Pour.{word_in, written_in, Begins, poured_by};

use crate::cells::line_of;
use crate::found::Survey;
use crate::held::{address_at, held_at};
use lines::{Entry, Line};
use places::{BinWord, Console, PAGE_PARAGRAPHS, PARAGRAPH_SIZE};

// Which word of the BIN a line that puts BIN word `lo` at address `at` has at address `a`: a number, as lines that the rules refuse
// may name one past all words of a BIN.
fn word_of(lo: BinWord, at: Console, a: Console) -> usize
    requires { at.0 ≤ a.0 }
    ensures place { result ≡ (bin_place lo at a).0 }
    ensures below { result < 4294967296 + 65536 }
{
    lo.0 as usize + usize::from(a.0 - at.0)
}

// A paragraph's words, of the BIN from word w on. Bytes past the BIN's end are zeros: only lines that the rules refuse name them.
fn copy(bin: &[u8], w: usize, words: &mut [u16])
    requires { (length words.old ≡ paragraph_size) × (w < 4294967296 + 65536) }
    ensures { words.new ≡ table paragraph_size (λ i. word_in bin.now (w + i)) }
{
    let mut bytes = [0u8; 2 * PARAGRAPH_SIZE];
    let from = bin.len().min(2 * w);
    let to = bin.len().min(2 * w + 2 * PARAGRAPH_SIZE);
    basics::put_bytes(&mut bytes, &bin[from..to]);
    for i in 0..PARAGRAPH_SIZE {
        words[i] = u16::from_be_bytes([bytes[2 * i], bytes[2 * i + 1]]);
    }
}

// Those of a line, from address a on: declared RAM is written as zeros.
fn write_line(bin: &[u8], e: Entry, a: Console, words: &mut [u16])
    requires { (first e ≤ a.0) × (length words.old ≡ paragraph_size) }
    ensures { words.new ≡ table paragraph_size (λ i. written_by bin.now e (console (a.0 + i))) }
{
    match e {
        Entry::Rom(lo, _, at) | Entry::Paged(lo, _, at, _) => copy(bin, word_of(lo, at, a), words),
        Entry::Ram(_, _, _) => words.fill(0),
    }
}

// Those of Locutus paragraph p: of the line behind it, or zeros.
fn write_paragraph(bin: &[u8], lines: &[Line], s: &Survey, p: usize, words: &mut [u16])
    requires p_lt_cells { (p < cells) × (length words.old ≡ paragraph_size) }
    requires begins { Begins lines.now s.now }
    ensures { words.new ≡ table paragraph_size (λ i. written_in bin.now lines.now s.now (paragraph_size * p + i)) }
{
    match line_of(lines, held_at(s, p)) {
        Some(line) => write_line(bin, line.entry, address_at(s, p), words),
        None => words.fill(0),
    }
}

// The words of all pages, as many whole paragraphs as the RAM has room for.
pub(crate) fn pour(bin: &[u8], lines: &[Line], s: &Survey, ram: &mut [u16])
    requires { Begins lines.now s.now }
    ensures { ram.new ≡ poured_by bin.now lines.now s.now ram.old }
{
    let n = (PAGE_PARAGRAPHS * usize::from(s.pages)).min(ram.len() / PARAGRAPH_SIZE);
    for p in 0..n {
        let a = PARAGRAPH_SIZE * p;
        write_paragraph(bin, lines, s, p, &mut ram[a..a + PARAGRAPH_SIZE]);
    }
}

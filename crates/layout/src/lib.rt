// How the builder lays an image out: Locutus pages, tables, covered paragraphs (01, "How an image is laid out by the builder").
#![tactic(auto)]

mod cells;
mod entries;
mod found;
mod held;
mod pages;
mod pour;
mod survey;

ghost use Rattle.std.specs.Prelude.{◌≡◌, take};
ghost use Rattle.places.specs.Limits.{line_limit};
ghost use Rattle.layout.specs.Drawing.{drawing_of, ram_of};
ghost use Rattle.layout.specs.Code.Entries.{drawn_by};

use entries::{flips_of, mapping_of, permissions_of};
use found::Survey;
use held::marks_of;
use lines::Line;
use places::{FLIP_ENTRIES, LINE_LIMIT, LOCUTUS_PARAGRAPHS, PARAGRAPHS};
use pour::pour;
use survey::survey_of;

// The three tables, how many Locutus pages there are, and a mark for each covered Locutus paragraph.
#[derive(Clone, Copy)]
pub struct Drawing {
    pub mapping: [u16; PARAGRAPHS],
    pub permissions: [u8; PARAGRAPHS],
    pub flips: [u16; FLIP_ENTRIES],
    pub pages: u16,
    pub marks: [bool; LOCUTUS_PARAGRAPHS],
}

fn drawn(s: &Survey) -> Drawing
    ensures { result ≡ drawn_by s.now }
{
    let flips = flips_of(s);
    Drawing {
        mapping: mapping_of(s, &flips),
        permissions: permissions_of(s, &flips),
        flips,
        pages: s.pages,
        marks: marks_of(s),
    }
}

// The tables, pages and marks of lines, of which as many count as a CFG may have.
pub fn draw(lines: &[Line]) -> Drawing
    ensures { result ≡ drawing_of (take line_limit lines.now) }
{
    drawn(&survey_of(&lines[..LINE_LIMIT.min(lines.len())]))
}

// The same, with the words of all pages laid into a RAM.
pub fn lay_out(bin: &[u8], lines: &[Line], ram: &mut [u16]) -> Drawing
    ensures { (result ≡ drawing_of (take line_limit lines.now)) × (ram.new ≡ ram_of bin.now (take line_limit lines.now) ram.old) }
{
    let lines = &lines[..LINE_LIMIT.min(lines.len())];
    let s = survey_of(lines);
    pour(bin, lines, &s, ram);
    drawn(&s)
}

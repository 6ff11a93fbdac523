// A plan in two arrays, and its canonical lines (02, W-213): those of [mapping], then those of [memattr].
#![tactic(auto)]

mod bin;
mod entries;
mod homes;

ghost use Rattle.std.specs.Prelude.{◌+◌, ◌≤◌, ◌≡◌, [], cond, eqb, set, take};
ghost use Rattle.places.specs.Limits.{paragraphs};
ghost use Rattle.canon.specs.Laws.Lines.{canonical_lines, line};
ghost use Rattle.ledger.specs.Held.{sketched};
ghost use Rattle.ledger.specs.Code.Lists.{added, list_of, listing_of, mapping_lines, most_lines, most_mapping, rom_lines};

pub use bin::word_of;
use lines::{Entry, Line};
use places::{BinWord, Console, FLIP_ENTRIES, LINE_LIMIT, PARAGRAPHS};

// A plan: the kind of each console paragraph, and whether chapter n / 16 has page n % 16. A kind is a number, as in the tables: their
// permission bits (01), 1 for ROM, 3 for RAM of 16 bits, 7 for RAM of 8 bits, and 0 for none.
#[derive(Clone, Copy)]
pub struct Sketch {
    pub kinds: [u8; PARAGRAPHS],
    pub pages: [bool; FLIP_ENTRIES],
}

// Lines at the front of an array, how many there are, and how many of them are of [mapping]. Those past the last place are counted. The
// number stands beside the array because the project has no heap.
#[derive(Clone, Copy)]
pub struct Listing {
    pub mapping: usize,
    pub count: usize,
    pub lines: [Line; LINE_LIMIT],
}

impl Listing {
    // Returns the lines that have a place.
    pub fn as_slice(&self) -> &[Line]
        ensures { result.now ≡ take self.now.count self.now.lines }
    {
        &self.lines[..self.count.min(LINE_LIMIT)]
    }
}

// The lines so far, as a listing has them.
#[derive(Clone, Copy)]
struct Found {
    count: usize,
    lines: [Line; LINE_LIMIT],
}

impl Found {
    fn new() -> Found
        ensures { result ≡ list_of [] }
    {
        let blank = Line {
            source: 0,
            entry: Entry::Rom(BinWord(0), BinWord(0), Console(0)),
        };
        let lines = [blank; LINE_LIMIT];
        Found { count: 0, lines }
    }

    // Adds a line, which stands after all lines so far and those that name sections. A line that has no place is counted.
    fn push(&mut self, names: usize, entry: Entry)
        requires { (self.old.count ≤ most_lines) × (names ≤ 3) }
        ensures { self.new ≡ added self.old (line (names + self.old.count) entry) }
    {
        if self.count < LINE_LIMIT {
            self.lines[self.count] = Line {
                source: (names + self.count) as u32,
                entry,
            };
        }
        self.count += 1;
    }
}

// Returns the number of the line that names [memattr], and one more: the names of sections count too.
fn names_before(mapping: usize) -> usize
    ensures { (result ≡ cond (eqb mapping 0) 2 3) × (result ≤ 3) }
{
    if mapping == 0 { 2 } else { 3 }
}

impl Sketch {
    // Returns the lines of ROM.
    fn rom_lines(&self) -> Found
        ensures { (result ≡ list_of (rom_lines (sketched self.now))) × (result.count ≤ paragraphs) }
    {
        let mut f = Found::new();
        for p in 0..PARAGRAPHS {
            if self.starts_rom(p) {
                f.push(2, self.rom_entry(p));
            }
        }
        f
    }

    // Adds the lines of the pages to those of ROM.
    fn with_pages(&self, roms: Found) -> Found
        requires { (roms ≡ list_of (rom_lines (sketched self.now))) × (roms.count ≤ paragraphs) }
        ensures { (result ≡ list_of (mapping_lines (sketched self.now))) × (result.count ≤ most_mapping) }
    {
        let mut f = roms;
        for n in 0..FLIP_ENTRIES {
            if self.pages[n] {
                f.push(2, self.page_entry(n));
            }
        }
        f
    }

    // Adds the lines of RAM to those of [mapping].
    fn with_rams(&self, names: usize, mapping: Found) -> Found
        requires lines { (mapping ≡ list_of (mapping_lines (sketched self.now))) × (mapping.count ≤ most_mapping) }
        requires names { (names ≡ cond (eqb mapping.count 0) 2 3) × (names ≤ 3) }
        ensures { result ≡ list_of (canonical_lines (sketched self.now)) }
    {
        let mut f = mapping;
        for p in 0..PARAGRAPHS {
            if self.starts_ram(p) {
                f.push(names, self.ram_entry(p));
            }
        }
        f
    }

    // Returns all canonical lines of the plan.
    pub fn listing(&self) -> Listing
        ensures { result ≡ listing_of (sketched self.now) }
    {
        let mapping = self.with_pages(self.rom_lines());
        let all = self.with_rams(names_before(mapping.count), mapping);
        let lines = all.lines;
        Listing {
            mapping: mapping.count,
            count: all.count,
            lines,
        }
    }
}

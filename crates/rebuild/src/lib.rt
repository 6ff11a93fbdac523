// Whether the plan behind an image builds it again (02, W-213): the plan's canonical lines go through the builder's own layout, and what it
// draws is compared with the image.
#![tactic(auto)]

mod compare;

ghost use Rattle.std.specs.Prelude.{◌*◌, ◌≡◌, leb, length};
ghost use Rattle.basics.specs.Tables.{table};
ghost use Rattle.places.specs.Limits.{flip_entries, lent_limit, locutus_paragraphs, page_size, paragraphs};
ghost use Rattle.tables.specs.Tables.{tables};
ghost use Rattle.retrace.specs.Code.Named.{named_in, word_named};
ghost use Rattle.ledger.specs.Held.{sketched, words_in};
ghost use Rattle.rebuild.specs.Code.Retraced.{drawing_fits, listing_fits, retraced_of};

use compare::{names_fit, ram_fits};
use layout::Drawing;
use ledger::{Listing, Sketch};
use places::{FLIP_ENTRIES, LENT_LIMIT, LINE_LIMIT, LOCUTUS_PARAGRAPHS, PAGE_SIZE, PARAGRAPHS};
use retrace::{marks_of, plan_behind};

// The plan behind an image, its canonical lines, and whether they build the image's tables and named words.
#[derive(Clone, Copy)]
pub struct Retraced {
    pub sketch: Sketch,
    pub listing: Listing,
    pub fits: bool,
}

// An image to be retraced: its tables, the words that it leaves in a RAM of zeros and in one of ones, and which Locutus paragraphs it names by them.
#[derive(Clone, Copy)]
struct Image<'a> {
    mapping: &'a [u16; PARAGRAPHS],
    permissions: &'a [u8; PARAGRAPHS],
    flips: &'a [u16; FLIP_ENTRIES],
    zeros: &'a [u16],
    ones: &'a [u16],
    named: &'a [bool; LOCUTUS_PARAGRAPHS],
    ghost sizes: { (length mapping.now ≡ paragraphs) × (length permissions.now ≡ paragraphs) × (length flips.now ≡ flip_entries) },
    ghost named_all: { named.now ≡ table locutus_paragraphs (named_in zeros.now ones.now) },
}

impl<'a> Image<'a> {
    // What was drawn is the image's, with so many pages as Locutus has.
    fn fits_drawing(&self, d: &Drawing) -> bool
        ensures { result ≡ drawing_fits d.now (tables self.now.mapping.now self.now.permissions.now self.now.flips.now) (word_named self.now.zeros.now self.now.ones.now) }
    {
        PAGE_SIZE * usize::from(d.pages) <= LENT_LIMIT
            && d.mapping == *self.mapping
            && d.permissions == *self.permissions
            && d.flips == *self.flips
            && names_fit(self.zeros, self.ones, self.named, &d.marks)
    }

    // Lines that are not too many, drawn; and the plan's RAM is all zeros.
    fn fits_listing(&self, l: &Listing, s: &Sketch) -> bool
        ensures { result ≡ listing_fits l.now (sketched s.now) (tables self.now.mapping.now self.now.permissions.now self.now.flips.now) (word_named self.now.zeros.now self.now.ones.now) (words_in self.now.zeros.now) }
    {
        (1..=LINE_LIMIT).contains(&l.count)
            && self.fits_drawing(&layout::draw(&l.lines[..l.count]))
            && ram_fits(s, self.zeros)
    }

    fn retraced(&self) -> Retraced
        ensures { result ≡ retraced_of (tables self.now.mapping.now self.now.permissions.now self.now.flips.now) self.now.zeros.now self.now.ones.now }
    {
        let sketch = plan_behind(self.permissions, self.flips, self.named);
        let listing = sketch.listing();
        Retraced {
            sketch,
            listing,
            fits: self.fits_listing(&listing, &sketch),
        }
    }
}

// Of these tables, and of the words that an image leaves in a RAM of zeros and in one of ones.
pub fn retrace_image(
    mapping: [u16; PARAGRAPHS],
    permissions: [u8; PARAGRAPHS],
    flips: [u16; FLIP_ENTRIES],
    zeros: &[u16],
    ones: &[u16],
) -> Retraced
    ensures { result ≡ retraced_of (tables mapping permissions flips) zeros.now ones.now }
{
    let named = marks_of(zeros, ones);
    let image = Image {
        mapping: &mapping,
        permissions: &permissions,
        flips: &flips,
        zeros,
        ones,
        named: &named,
    };
    image.retraced()
}

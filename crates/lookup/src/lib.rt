// The desk's lookup of a text by its tag and its number: the label file's, else the image's, shown from the file it stands in and not
// copied (02, "W-204").
#![tactic(auto)]

ghost use Rattle.std.specs.Prelude.{◌≡◌};
ghost use Rattle.basics.specs.Refusals.{passed};
ghost use Rattle.metadata.specs.Texts.{seek_in, given_twice};
ghost use Rattle.lookup.specs.Lookup.{image_texts, refusal_of, text_of, find_of};
ghost use Rattle.lookup.specs.Shown.{PartOf, Shows, place_in};
ghost use Rattle.lookup.specs.Code.Blocks.{block_texts};

use basics::Refusal;
use blocks::{FIRST_BLOCK, FRAME_SIZE, Frame};
use metadata::Span;

// The file that a text stands in, and where it stands there.
#[derive(Clone, Copy)]
pub enum Place {
    Label(Span),
    Image(Span),
}

// The n-th text with the tag in the payload of the block x of type t.
fn seek_block(x: &[u8], t: u8, tag: u8, n: usize) -> Result<Span, usize>
    ensures { result ≡ seek_in n (block_texts tag t x.now) }
{
    if t != blocks::METADATA_TYPE {
        return Err(n);
    }
    metadata::seek(&x[FRAME_SIZE.min(x.len())..], tag, n)
}

// The n-th text with the tag over an image's blocks in order, where it stands in the image.
pub fn seek(image: &[u8], tag: u8, n: usize) -> Result<Span, usize>
    ensures { result ≡ seek_in n (image_texts tag image.now) }
{
    let mut p = FIRST_BLOCK;
    let mut left = n;
    while let Frame::Framed(t, q) = blocks::frame_at(image, p) {
        match seek_block(&image[p..q], t, tag, left) {
            Ok(x) => {
                return Ok(Span {
                    from: p + FRAME_SIZE + x.from,
                    to: p + FRAME_SIZE + x.to,
                });
            }
            Err(k) => left = k,
        }
        p = q;
    }
    Err(left)
}

// Whether an image gives a single-value tag twice, over all its blocks.
pub fn is_twice(image: &[u8], tag: u8) -> bool
    ensures { result ≡ given_twice tag (image_texts tag image.now) }
{
    metadata::is_single(tag) && seek(image, tag, 2).is_ok()
}

// A lookup's refusals: a load's for a RAM of 524,288 words, then 12 for a label that is cut.
pub fn refusal_of(label: &[u8], image: &[u8]) -> Result<(), Refusal>
    ensures { result ≡ passed (refusal_of label.now image.now) }
{
    load::refusal_for(image, places::LENT_LIMIT)?;
    if metadata::is_cut(label) {
        return Err(basics::refuse(12, 0));
    }
    Ok(())
}

// The label's n-th text with the tag, else the image's, else none; no refusal is asked.
pub fn text_of(label: &[u8], image: &[u8], tag: u8, n: usize) -> Option<Place>
    ensures { result ≡ text_of label.now image.now tag n }
{
    match metadata::seek(label, tag, n) {
        Ok(x) => Some(Place::Label(x)),
        Err(_) => match seek(image, tag, n) {
            Ok(x) => Some(Place::Image(x)),
            Err(_) => None,
        },
    }
}

// The same behind the refusals.
pub fn find(label: &[u8], image: &[u8], tag: u8, n: usize) -> Result<Option<Place>, Refusal>
    ensures { result ≡ find_of label.now image.now tag n }
{
    refusal_of(label, image)?;
    Ok(text_of(label, image, tag, n))
}

// Where a text stands in a file, in the file; where the file has no such bytes, its empty front.
fn part_of<'a>(s: &'a [u8], x: Span) -> &'a [u8]
    ensures { PartOf result s.entry x.from x.to }
{
    if x.from <= x.to && x.to <= s.len() {
        &s[x.from..x.to]
    } else {
        &s[..0]
    }
}

// What was found, shown from the file that it stands in.
pub fn shown<'a>(label: &'a [u8], image: &'a [u8], f: Option<Place>) -> &'a [u8]
    ensures { Shows result label.entry image.entry f }
{
    match f {
        Some(Place::Label(x)) => part_of(label, x),
        Some(Place::Image(x)) => part_of(image, x),
        None => part_of(label, Span { from: 0, to: 0 }),
    }
}

// The text of a lookup, as a part of the label or of the image.
pub fn lookup<'a>(label: &'a [u8], image: &'a [u8], tag: u8, n: usize) -> &'a [u8]
    ensures { Shows result label.entry image.entry (place_in (find_of label.now image.now tag n)) }
{
    shown(label, image, find(label, image, tag, n).unwrap_or(None))
}

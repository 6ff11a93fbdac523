// Salvage of a damaged image: the walk of a load with other consequences (02, W-208). A pass that surveys, judges each block once, notes what is
// left out and writes nothing, then one that copies by the notes.
#![tactic(auto)]

ghost use Rattle.std.specs.Prelude.{◌≡◌, ◌*◌, ◌≤◌, ◌+◌, length, set};
ghost use Rattle.basics.specs.Lists.{flat, put_front};
ghost use Rattle.basics.specs.Refusals.{passed};
ghost use Rattle.sums.specs.Crc.{c324_poly};
ghost use Rattle.sums.specs.Tables.{tables_of};
ghost use Rattle.header.specs.Header.{header_size};
ghost use Rattle.blocks.specs.Blocks.{frame_size, payload_in};
ghost use Rattle.blocks.specs.Images.{first_block, blocks_in};
ghost use Rattle.recovery.specs.Salvage.{left_out, kept_in, drops_in, salvage_of, salvage_answer, fitted, salvaging_of, written_of, listed_in};
ghost use Rattle.recovery.specs.Card.{answer_of, answered_of};
ghost use Rattle.recovery.specs.declared.Found.{Found};
ghost use Rattle.recovery.specs.Code.Passes.{step_of, late_of, late_after, ended_by, found_of, survey_of, Noted, closed_size, end_put};

use basics::{Declined, Refusal};
use blocks::{END_MARK, FIRST_BLOCK, FRAME_SIZE, Frame, HUNK_TYPE, TABLES_TYPE};
use header::HEADER_SIZE;
use places::{IMAGE_LIMIT, LENT_LIMIT};
use sums::TABLE_ENTRIES;

// A note for each block of the longest image: no block is shorter than its frame.
const NOTES: usize = IMAGE_LIMIT / FRAME_SIZE;

// What a salvage answers that nothing refuses: the length of what is written, the blocks kept and left out, and the place where the walk stopped
// at a block that is cut, if it did.
#[derive(Clone, Copy)]
pub struct Salvaged {
    pub length: usize,
    pub kept: usize,
    pub dropped: usize,
    pub stopped: Option<usize>,
}

// A step of the surveying pass: it stops, with the place of a block that is cut, if there is one; a block's type and the next place where the
// block is kept; or the next place where it is left out.
#[derive(Clone, Copy)]
pub enum Step {
    Stops(Option<usize>),
    Keeps(u8, usize),
    Drops(usize),
}

// What the survey found: the blocks kept and left out, the bytes of header and kept blocks, and where it stopped.
#[derive(Clone, Copy)]
pub struct Found {
    pub kept: usize,
    pub dropped: usize,
    pub long: usize,
    pub stopped: Option<usize>,
}

// Whether a block is left out: a hunk that a load into the largest RAM refuses.
fn is_left_out(x: &[u8], c324: &[u32; TABLE_ENTRIES]) -> bool
    requires { c324.now ≡ tables_of c324_poly }
    ensures { result ≡ left_out x.now }
{
    basics::byte_at(x, 0) == HUNK_TYPE && load::judge(x, c324, LENT_LIMIT, false).is_err()
}

// One step of the surveying pass.
fn step_at(s: &[u8], c324: &[u32; TABLE_ENTRIES], earlier: bool, p: usize) -> Result<Step, Refusal>
    requires { c324.now ≡ tables_of c324_poly }
    ensures { result ≡ step_of s.now earlier p }
{
    match blocks::frame_at(s, p) {
        Frame::Over => Ok(Step::Stops(None)),
        Frame::Cut => Ok(Step::Stops(Some(p))),
        Frame::Framed(t, q) => match load::judge(&s[p..q], c324, LENT_LIMIT, earlier) {
            Ok(_) => Ok(Step::Keeps(t, q)),
            Err(_) if t == HUNK_TYPE => Ok(Step::Drops(q)),
            Err(r) => Err(basics::refuse(r.number, p + r.place)),
        },
    }
}

// What a load refuses of these flags and of the tables block x.
#[tactic(auto, unfolding(crate::specs::Code::Passes::late_of, tables::specs::Tables::cartridge_of))]
fn late_of(flags: &[u8], x: &[u8]) -> Result<(), Refusal>
    ensures { result ≡ passed (late_of flags.now (payload_in x.now)) }
{
    let cartridge = tables::cartridge_of(tables::jlp_of(flags), blocks::payload_of(x));
    tables::refused(
        flags,
        &cartridge.flips,
        LENT_LIMIT,
        tables::flash_words(flags),
    )
}

// The same after a block of type t: what a load refuses of the tables block, once one was seen.
#[tactic(auto, unfolding(crate::specs::Code::Passes::late_after))]
fn late_after(
    late: Option<Result<(), Refusal>>,
    flags: &[u8],
    x: &[u8],
    t: u8,
) -> Option<Result<(), Refusal>>
    ensures { result ≡ late_after late flags.now x.now t }
{
    if t == TABLES_TYPE {
        return Some(late_of(flags, x));
    }
    late
}

// Ends the survey: refusal 8 where it saw no tables block, then what was refused of that.
#[tactic(auto, unfolding(crate::specs::Code::Passes::ended_by))]
fn ended(size: usize, late: Option<Result<(), Refusal>>, found: Found) -> Result<Found, Refusal>
    ensures { result ≡ ended_by size late found }
{
    match late {
        None => Err(basics::refuse(8, size)),
        Some(Err(r)) => Err(r),
        Some(Ok(())) => Ok(found),
    }
}

// The surveying pass over the blocks. Each is noted: left out or not.
fn survey(s: &[u8], c324: &[u32; TABLE_ENTRIES], notes: &mut [bool]) -> Result<Found, Refusal>
    requires { (c324.now ≡ tables_of c324_poly) × (header_size ≤ length s.now) × (length s.now ≤ frame_size * length notes.old) }
    ensures { (result ≡ survey_of s.now) × ((found : Found) → result ≡ Ok found → Noted (blocks_in s.now) notes.new) }
{
    let flags = header::flags_of(s);
    let mut p = FIRST_BLOCK;
    let mut late = None;
    let mut kept = 0;
    let mut dropped = 0;
    let mut long = HEADER_SIZE;
    loop {
        match step_at(s, c324, late.is_some(), p)? {
            Step::Stops(stopped) => {
                let found = Found {
                    kept,
                    dropped,
                    long,
                    stopped,
                };
                return ended(s.len(), late, found);
            }
            Step::Keeps(t, q) => {
                notes[kept + dropped] = false;
                late = late_after(late, flags, &s[p..q], t);
                kept += 1;
                long += q - p;
                p = q;
            }
            Step::Drops(q) => {
                notes[kept + dropped] = true;
                dropped += 1;
                p = q;
            }
        }
    }
}

// The kept blocks, byte for byte, into a part of just their size.
fn copy_blocks(s: &[u8], notes: &[bool], out: &mut [u8])
    requires { (Noted (blocks_in s.now) notes.now) × (length out.old ≡ length (flat (kept_in s.now))) }
    ensures { out.new ≡ flat (kept_in s.now) }
{
    let mut p = FIRST_BLOCK;
    let mut n = 0;
    let mut at = 0;
    while let Frame::Framed(_, q) = blocks::frame_at(s, p) {
        let left_out = notes[n];
        n += 1;
        if !left_out {
            let e = at + (q - p);
            basics::put_bytes(&mut out[at..e], &s[p..q]);
            at = e;
        }
        p = q;
    }
}

// So many bytes, closed.
fn closed_size(n: usize) -> usize
    ensures { result ≡ closed_size n }
{
    if n < IMAGE_LIMIT { n + 1 } else { n }
}

// 0xFF behind so many bytes, unless it would pass the image limit.
#[tactic(auto, unfolding(crate::specs::Code::Passes::end_put))]
fn put_end(out: &mut [u8], n: usize)
    ensures { out.new ≡ end_put n out.old }
{
    if n < IMAGE_LIMIT && n < out.len() {
        out[n] = END_MARK;
    }
}

// The image, into the front of a buffer that holds it: the header and the kept blocks, which have so many bytes, each in a part of its own.
fn put_image(s: &[u8], notes: &[bool], long: usize, out: &mut [u8])
    requires { (Noted (blocks_in s.now) notes.now) × (header_size ≤ length s.now) × (long ≡ first_block + length (flat (kept_in s.now))) × (closed_size long ≤ length out.old) }
    ensures { out.new ≡ put_front (salvage_of s.now) out.old }
{
    basics::put_bytes(&mut out[0..HEADER_SIZE], &s[0..HEADER_SIZE]);
    copy_blocks(s, notes, &mut out[HEADER_SIZE..long]);
    put_end(out, long);
}

// After the survey: 29, then the copying pass and the answer.
fn finish(s: &[u8], notes: &[bool], found: Found, out: &mut [u8]) -> Result<Salvaged, Declined>
    requires { (Noted (blocks_in s.now) notes.now) × (header_size ≤ length s.now) × (found ≡ found_of s.now) }
    ensures { (result ≡ salvage_answer (fitted (length out.old) s.now)) × (out.new ≡ put_front (salvage_of s.now) out.old) }
{
    let length = closed_size(found.long);
    if out.len() < length {
        return Err(Declined {
            refusal: basics::refuse(29, 0),
            length,
        });
    }
    put_image(s, notes, found.long, out);
    Ok(Salvaged {
        length,
        kept: found.kept,
        dropped: found.dropped,
        stopped: found.stopped,
    })
}

// Salvages an image into a lent buffer, which no refusal changes.
pub fn salvage(image: &[u8], out: &mut [u8]) -> Result<Salvaged, Declined>
    ensures { (result ≡ salvage_answer (salvaging_of out.old image.now)) × (out.new ≡ written_of out.old image.now) }
{
    header::check(image)?;
    let c324 = sums::tables(sums::C324);
    let mut notes = [false; NOTES];
    let found = survey(image, &c324, &mut notes)?;
    finish(image, &notes, found, out)
}

// The program's answer: the card's 30 before all others.
pub fn answer(image: &[u8], out: &mut [u8]) -> Result<Salvaged, Declined>
    ensures { (result ≡ salvage_answer (answer_of out.old image.now)) × (out.new ≡ answered_of out.old image.now) }
{
    if places::CARD_LIMIT < image.len() {
        return Err(Declined::from(basics::refuse(30, 0)));
    }
    salvage(image, out)
}

// A number into a place of an array that has this place.
fn note(places: &mut [usize], n: usize, p: usize)
    ensures { places.new ≡ set places.old n p }
{
    if n < places.len() {
        places[n] = p;
    }
}

// The places of the blocks of an image that are left out, as many as the lent array has room for; and how many they are. One place for each
// eight bytes of the image is room for all.
pub fn drops(image: &[u8], places: &mut [usize]) -> usize
    ensures { (result ≡ length (drops_in image.now)) × (places.new ≡ listed_in image.now places.old) }
{
    let c324 = sums::tables(sums::C324);
    let mut p = FIRST_BLOCK;
    let mut n = 0;
    while let Frame::Framed(_, q) = blocks::frame_at(image, p) {
        if is_left_out(&image[p..q], &c324) {
            note(places, n, p);
            n += 1;
        }
        p = q;
    }
    n
}

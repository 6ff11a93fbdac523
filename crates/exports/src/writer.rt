// The plain writer: an image from flag bytes, UID, tables, a RAM, and a byte for each Locutus paragraph.
ghost use Rattle.std.specs.Prelude.{◌<◌, ◌≡◌};
ghost use Rattle.tables.specs.Tables.{tables};
ghost use Rattle.save.specs.Writing.{content, saving_from, writing_of, written_of};
ghost use Rattle.exports.specs.Images.{marks_from, image_as};

use basics::Declined;
use header::{FLAGS_SIZE, UID_SIZE};
use places::{LOCUTUS_PARAGRAPHS, PARAGRAPHS};
use std::array;

// What the writer answers: its refusal, and the image's length.
#[repr(C)]
#[derive(Clone, Copy)]
pub struct WrittenImage {
    pub number: u32,
    pub place: usize,
    pub length: usize,
}

fn image_as(answer: Result<usize, Declined>) -> WrittenImage
    ensures { result ≡ image_as (saving_from answer) }
{
    match answer {
        Ok(length) => WrittenImage {
            number: 0,
            place: 0,
            length,
        },
        Err(d) => WrittenImage {
            number: d.refusal.number,
            place: d.refusal.place,
            length: d.length,
        },
    }
}

// C's bytes may hold any number: every byte but 0 marks.
fn marks_from(bytes: &[u8; LOCUTUS_PARAGRAPHS]) -> [bool; LOCUTUS_PARAGRAPHS]
    ensures { result ≡ marks_from bytes.now }
{
    array::from_fn(|p| bytes[p] != 0)
}

// The image of the marked paragraphs, into the front of a lent buffer.
#[unsafe(no_mangle)]
pub extern "C" fn luigi_write_image<'a>(
    flags: &[u8; FLAGS_SIZE],
    uid: &[u8; UID_SIZE],
    mapping: &[u16; PARAGRAPHS],
    permissions: &'a [u8; PARAGRAPHS],
    flips: &'a [u16; PARAGRAPHS],
    ram: &[u16],
    marks: &[u8; LOCUTUS_PARAGRAPHS],
    out: &mut [u8],
) -> WrittenImage
    ensures { (result ≡ image_as (writing_of out.old (content flags.now uid.now (tables mapping.now permissions.now flips.now) ram.now (marks_from marks.now))))
        × (out.new ≡ written_of out.old (content flags.now uid.now (tables mapping.now permissions.now flips.now) ram.now (marks_from marks.now))) }
{
    let m = marks_from(marks);
    image_as(save::write(out, flags, uid, mapping, permissions, flips, ram, &m))
}

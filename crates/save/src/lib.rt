// The plain writer: an image of the marked paragraphs of a RAM (01, "How an image is laid out by the builder").
#![tactic(auto)]

ghost use Rattle.std.specs.Prelude.{◌≡◌, ◌++◌, ◌∷◌, [], ◌+◌, ◌*◌, ◌≤◌, ◌<◌, length, get_or};
ghost use Rattle.basics.specs.Counts.{lowest};
ghost use Rattle.basics.specs.Lists.{put_front};
ghost use Rattle.basics.specs.Refusals.{passed};
ghost use Rattle.places.specs.Limits.{locutus_paragraphs};
ghost use Rattle.sums.specs.Crc.{c324_poly, crc324_of};
ghost use Rattle.sums.specs.Tables.{tables_of};
ghost use Rattle.tables.specs.Tables.{tables, tables_payload};
ghost use Rattle.hunk.specs.Hunk.{hunk, payload_size};
ghost use Rattle.blocks.specs.Blocks.{frame_size, end_mark, payload_in, put_frame};
ghost use Rattle.save.specs.Chosen.{tables_block, hunk_block};
ghost use Rattle.save.specs.Writing.{content, paragraph_of, image_by, past, save_answer, writing_of, written_of};
ghost use Rattle.save.specs.Code.Writing.{block_limit, front_of, front_size, hunk_bytes, image_size, judged_by, declined_by};

use basics::{Declined, Refusal};
use blocks::FRAME_SIZE;
use header::{FLAGS_SIZE, UID_SIZE};
use places::{LOCUTUS_PARAGRAPHS, Locutus, PARAGRAPH_SIZE, PARAGRAPHS};
use std::array;
use sums::TABLE_ENTRIES;

// The words of paragraph p of a RAM.
fn paragraph_of(ram: &[u16], p: usize) -> [u16; PARAGRAPH_SIZE]
    requires { p < locutus_paragraphs }
    ensures { result ≡ paragraph_of ram.now p }
{
    array::from_fn(|i| ram.get(PARAGRAPH_SIZE * p + i).copied().unwrap_or(0))
}

// The frame of a block whose payload stands from byte 8 on.
fn frame(out: &mut [u8], t: u8, c324: &[u32; TABLE_ENTRIES])
    requires { c324.now ≡ tables_of c324_poly }
    ensures { out.new ≡ put_frame t (crc324_of (payload_in out.old)) out.old }
{
    let sum = blocks::payload_sum(c324, out);
    blocks::put_frame(out, t, sum);
}

// The tables block, into a part of just its size.
fn put_tables<'a>(
    out: &mut [u8],
    mapping: &[u16; PARAGRAPHS],
    permissions: &'a [u8; PARAGRAPHS],
    flips: &'a [u16; PARAGRAPHS],
    c324: &[u32; TABLE_ENTRIES],
)
    requires { (c324.now ≡ tables_of c324_poly) × (length out.old ≡ frame_size + length (tables_payload (tables mapping.now permissions.now flips.now))) × (length out.old ≤ block_limit) }
    ensures { out.new ≡ tables_block (tables mapping.now permissions.now flips.now) }
{
    tables::write(&mut out[FRAME_SIZE..], mapping, permissions, flips);
    frame(out, blocks::TABLES_TYPE, c324);
}

// The block of a hunk, into a part of just its size.
fn put_hunk(out: &mut [u8], at: Locutus, words: &[u16; PARAGRAPH_SIZE], c324: &[u32; TABLE_ENTRIES])
    requires { (c324.now ≡ tables_of c324_poly) × (length out.old ≡ frame_size + payload_size words.now) × (length out.old ≤ block_limit) }
    ensures { out.new ≡ hunk_block (hunk at words.now) }
{
    hunk::write(&mut out[FRAME_SIZE..], at, words);
    frame(out, blocks::HUNK_TYPE, c324);
}

// The bytes before the hunks: those of the header and of the tables block.
fn front_size<'a>(
    flags: &[u8; FLAGS_SIZE],
    uid: &[u8; UID_SIZE],
    mapping: &[u16; PARAGRAPHS],
    permissions: &'a [u8; PARAGRAPHS],
    flips: &'a [u16; PARAGRAPHS],
) -> usize
    ensures { (result ≡ front_size flags.now uid.now (tables mapping.now permissions.now flips.now)) × (result ≤ 2 * block_limit) }
{
    header::size(flags, uid) + (FRAME_SIZE + tables::size(mapping, permissions, flips))
}

// The header and the tables block, each in a part of its own.
fn put_front<'a>(
    out: &mut [u8],
    flags: &[u8; FLAGS_SIZE],
    uid: &[u8; UID_SIZE],
    mapping: &[u16; PARAGRAPHS],
    permissions: &'a [u8; PARAGRAPHS],
    flips: &'a [u16; PARAGRAPHS],
    c324: &[u32; TABLE_ENTRIES],
)
    requires { (c324.now ≡ tables_of c324_poly) × (length out.old ≡ front_size flags.now uid.now (tables mapping.now permissions.now flips.now)) }
    ensures { out.new ≡ front_of flags.now uid.now (tables mapping.now permissions.now flips.now) }
{
    let a = header::size(flags, uid);
    let e = a + (FRAME_SIZE + tables::size(mapping, permissions, flips));
    header::write(&mut out[0..a], flags, uid);
    put_tables(&mut out[a..e], mapping, permissions, flips, c324);
}

// The bytes of the block of a paragraph's words.
fn block_size(words: &[u16; PARAGRAPH_SIZE]) -> usize
    ensures { (result ≡ frame_size + payload_size words.now) × (result ≤ block_limit) }
{
    FRAME_SIZE + hunk::size(words)
}

// The bytes of the blocks of the marked paragraphs.
fn hunks_size(ram: &[u16], marks: &[bool; LOCUTUS_PARAGRAPHS]) -> usize
    ensures { (result ≡ length (hunk_bytes ram.now marks.now)) × (result ≤ block_limit * locutus_paragraphs) }
{
    let mut long = 0;
    for p in 0..LOCUTUS_PARAGRAPHS {
        if marks[p] {
            let words = paragraph_of(ram, p);
            long += block_size(&words);
        }
    }
    long
}

// A block for each marked paragraph, each in a part of its own, and the end.
fn put_hunks(
    out: &mut [u8],
    ram: &[u16],
    marks: &[bool; LOCUTUS_PARAGRAPHS],
    c324: &[u32; TABLE_ENTRIES],
)
    requires { (c324.now ≡ tables_of c324_poly) × (length out.old ≡ length (hunk_bytes ram.now marks.now) + 1) }
    ensures { out.new ≡ hunk_bytes ram.now marks.now ++ (end_mark ∷ []) }
{
    let mut at = 0;
    for p in 0..LOCUTUS_PARAGRAPHS {
        if marks[p] {
            let words = paragraph_of(ram, p);
            let e = at + block_size(&words);
            put_hunk(
                &mut out[at..e],
                Locutus((PARAGRAPH_SIZE * p) as u32),
                &words,
                c324,
            );
            at = e;
        }
    }
    out[at] = blocks::END_MARK;
}

// How many bytes the image has: header, blocks, end.
fn image_size<'a>(
    flags: &[u8; FLAGS_SIZE],
    uid: &[u8; UID_SIZE],
    mapping: &[u16; PARAGRAPHS],
    permissions: &'a [u8; PARAGRAPHS],
    flips: &'a [u16; PARAGRAPHS],
    ram: &[u16],
    marks: &[bool; LOCUTUS_PARAGRAPHS],
) -> usize
    ensures { result ≡ image_size (content flags.now uid.now (tables mapping.now permissions.now flips.now) ram.now marks.now) }
{
    front_size(flags, uid, mapping, permissions, flips) + hunks_size(ram, marks) + 1
}

// The image, into the front of a buffer that holds its bytes.
fn put_image<'a>(
    out: &mut [u8],
    flags: &[u8; FLAGS_SIZE],
    uid: &[u8; UID_SIZE],
    mapping: &[u16; PARAGRAPHS],
    permissions: &'a [u8; PARAGRAPHS],
    flips: &'a [u16; PARAGRAPHS],
    ram: &[u16],
    marks: &[bool; LOCUTUS_PARAGRAPHS],
    long: usize,
)
    requires { (long ≡ image_size (content flags.now uid.now (tables mapping.now permissions.now flips.now) ram.now marks.now)) × (long ≤ length out.old) }
    ensures { out.new ≡ put_front (image_by (content flags.now uid.now (tables mapping.now permissions.now flips.now) ram.now marks.now)) out.old }
{
    let c324 = sums::tables(sums::C324);
    let a = front_size(flags, uid, mapping, permissions, flips);
    put_front(
        &mut out[0..a],
        flags,
        uid,
        mapping,
        permissions,
        flips,
        &c324,
    );
    put_hunks(&mut out[a..long], ram, marks, &c324);
}

// The lowest marked paragraph that does not lie in n words, or 2,048.
fn lowest_past(marks: &[bool; LOCUTUS_PARAGRAPHS], n: usize) -> usize
    ensures { result ≡ lowest locutus_paragraphs (past marks.now n) }
{
    for p in 0..LOCUTUS_PARAGRAPHS {
        if marks[p] && n < PARAGRAPH_SIZE * p + PARAGRAPH_SIZE {
            return p;
        }
    }
    LOCUTUS_PARAGRAPHS
}

// Checks a writing whose image has `long` bytes: refusals 10, 11, 13, 9, 1 and 29, in their order.
fn judge(
    room: usize,
    flags: &[u8; FLAGS_SIZE],
    flips: &[u16; PARAGRAPHS],
    words: usize,
    marks: &[bool; LOCUTUS_PARAGRAPHS],
    long: usize,
) -> Result<(), Refusal>
    ensures { result ≡ passed (judged_by room flags.now flips.now words marks.now long) }
{
    tables::refused(flags, flips, words, tables::flash_words(flags))?;
    let first = lowest_past(marks, words);
    if first < LOCUTUS_PARAGRAPHS {
        return Err(basics::refuse(9, first));
    }
    if places::IMAGE_LIMIT < long {
        return Err(basics::refuse(1, 0));
    }
    if room < long {
        return Err(basics::refuse(29, 0));
    }
    Ok(())
}

// The error of a refusal, with the length that is needed where it is 29.
fn decline(refusal: Refusal, long: usize) -> Declined
    ensures { result ≡ declined_by refusal long }
{
    Declined {
        refusal,
        length: if refusal.number == 29 { long } else { 0 },
    }
}

// The plain writer: the image's length, and the length that is needed where the buffer is too short for it.
pub fn write<'a>(
    out: &mut [u8],
    flags: &[u8; FLAGS_SIZE],
    uid: &[u8; UID_SIZE],
    mapping: &[u16; PARAGRAPHS],
    permissions: &'a [u8; PARAGRAPHS],
    flips: &'a [u16; PARAGRAPHS],
    ram: &[u16],
    marks: &[bool; LOCUTUS_PARAGRAPHS],
) -> Result<usize, Declined>
    ensures { (result ≡ save_answer (writing_of out.old (content flags.now uid.now (tables mapping.now permissions.now flips.now) ram.now marks.now)))
        × (out.new ≡ written_of out.old (content flags.now uid.now (tables mapping.now permissions.now flips.now) ram.now marks.now)) }
{
    let long = image_size(flags, uid, mapping, permissions, flips, ram, marks);
    let words = places::lent_words(ram);
    if let Err(r) = judge(out.len(), flags, flips, words, marks, long) {
        return Err(decline(r, long));
    }
    put_image(
        out,
        flags,
        uid,
        mapping,
        permissions,
        flips,
        ram,
        marks,
        long,
    );
    Ok(long)
}

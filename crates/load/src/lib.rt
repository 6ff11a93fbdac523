// The load of a version 1 image: a pass that checks and touches no RAM, then one that stores (01, "Load order").
#![tactic(auto)]

ghost use Rattle.std.specs.Prelude.{◌≡◌, ◌≤◌, length};
ghost use Rattle.basics.specs.Refusals.{passed};
ghost use Rattle.places.specs.Limits.{lent};
ghost use Rattle.sums.specs.Crc.{c324_poly};
ghost use Rattle.sums.specs.Tables.{tables_of, by_tables};
ghost use Rattle.header.specs.Header.{header_size, flags_of};
ghost use Rattle.tables.specs.Tables.{jlp_of, cartridge_of, flash_words};
ghost use Rattle.blocks.specs.Blocks.{payload_in};
ghost use Rattle.blocks.specs.Judged.{verdict, judged_of};
ghost use Rattle.blocks.specs.Images.{blocks_in};
ghost use Rattle.load.specs.Load.{refusal_by_size, load_answer, loading_of, load_ram_of, hunks_laid};
ghost use Rattle.load.specs.Code.Passes.{judgement_of, tables_after, step_of, ended_at, found_of, checked_of, tables_at, Tabled, end_refusal, finished_of, block_stored, finished_ram_of};

use basics::Refusal;
use blocks::{FIRST_BLOCK, FRAME_SIZE, Frame};
use cart::Cartridge;
use header::Compat;
use sums::TABLE_ENTRIES;

// Where the checking pass goes on after a block: the next block's place, the tables block's, if one was seen, and the words that the block
// stores.
#[derive(Clone, Copy)]
pub struct Next {
    pub place: usize,
    pub tables: Option<usize>,
    pub words: usize,
}

// What the checking pass found: the place of the tables block, and the numbers of blocks and of the words that they store.
#[derive(Clone, Copy)]
pub struct Found {
    pub tables: usize,
    pub blocks: usize,
    pub words: usize,
}

// What a load answers that nothing refuses.
#[derive(Clone, Copy)]
pub struct Loaded {
    pub cartridge: Cartridge,
    pub compat: Compat,
    pub blocks: usize,
    pub words: usize,
}

// Judges the block x by itself, with its payload's sum by lent tables, for m words of RAM: a place counts from its first byte. The tables of
// CRC32/4 give the payload's own checksum.
pub fn judge(
    x: &[u8],
    c324: &[u32; TABLE_ENTRIES],
    m: usize,
    earlier: bool,
) -> Result<usize, Refusal>
    ensures { (result ≡ verdict (judged_of m earlier 0 (by_tables c324.now 0 (payload_in x.now)) x.now))
        × (c324.now ≡ tables_of c324_poly → result ≡ verdict (judgement_of m earlier 0 x.now)) }
{
    blocks::judge(x, blocks::payload_sum(c324, x), m, earlier)
}

// Returns the place of the tables block after a block of type t at p.
#[tactic(auto, unfolding(crate::specs::Code::Passes::tables_after))]
fn tables_after(tables: Option<usize>, p: usize, t: u8) -> Option<usize>
    ensures { result ≡ tables_after tables p t }
{
    if t == blocks::TABLES_TYPE {
        Some(p)
    } else {
        tables
    }
}

// One step of the checking pass: nothing where the image ends.
fn step_at(
    s: &[u8],
    c324: &[u32; TABLE_ENTRIES],
    m: usize,
    tables: Option<usize>,
    p: usize,
) -> Result<Option<Next>, Refusal>
    requires { c324.now ≡ tables_of c324_poly }
    ensures { result ≡ step_of s.now m tables p }
{
    match blocks::frame_at(s, p) {
        Frame::Over => Ok(None),
        Frame::Cut => Err(basics::refuse(5, p)),
        Frame::Framed(t, q) => match judge(&s[p..q], c324, m, tables.is_some()) {
            Err(r) => Err(basics::refuse(r.number, p + r.place)),
            Ok(words) => Ok(Some(Next {
                place: q,
                tables: tables_after(tables, p, t),
                words,
            })),
        },
    }
}

// Ends the checking pass: refusal 8 where it saw no tables block.
#[tactic(auto, unfolding(crate::specs::Code::Passes::ended_at))]
fn ended(size: usize, tables: Option<usize>, blocks: usize, words: usize) -> Result<Found, Refusal>
    ensures { result ≡ ended_at size tables blocks words }
{
    match tables {
        None => Err(basics::refuse(8, size)),
        Some(tables) => Ok(Found {
            tables,
            blocks,
            words,
        }),
    }
}

// The checking pass over the blocks.
fn check_blocks(s: &[u8], c324: &[u32; TABLE_ENTRIES], m: usize) -> Result<Found, Refusal>
    requires { c324.now ≡ tables_of c324_poly }
    ensures { result ≡ found_of s.now m }
{
    let mut p = FIRST_BLOCK;
    let mut tables = None;
    let mut blocks = 0;
    let mut words = 0;
    while let Some(next) = step_at(s, c324, m, tables, p)? {
        blocks += 1;
        words += next.words;
        tables = next.tables;
        p = next.place;
    }
    ended(s.len(), tables, blocks, words)
}

// The checks before the tables: of the header, then of the blocks for m words of RAM.
fn check(image: &[u8], m: usize) -> Result<Found, Refusal>
    ensures { result ≡ checked_of image.now m }
{
    header::check(image)?;
    check_blocks(image, &sums::tables(sums::C324), m)
}

// The hunk of the block x of type t, if it is one.
#[tactic(auto, unfolding(crate::specs::Code::Passes::block_stored))]
fn store_block(x: &[u8], t: u8, ram: &mut [u16])
    ensures { ram.new ≡ block_stored x.now t ram.old }
{
    if t == blocks::HUNK_TYPE {
        hunk::store(blocks::payload_of(x), ram);
    }
}

// The storing pass alone: each hunk before the stop is laid over the RAM, and one that is not good for the words lent lays nothing.
pub fn lay_hunks(image: &[u8], ram: &mut [u16])
    ensures { ram.new ≡ hunks_laid (blocks_in image.now) ram.old }
{
    let mut p = FIRST_BLOCK;
    while let Frame::Framed(t, q) = blocks::frame_at(image, p) {
        store_block(&image[p..q], t, ram);
        p = q;
    }
}

// Returns the cartridge of the accelerators that the header's flags give and of the tables block at t.
fn cartridge_at(s: &[u8], t: usize) -> Cartridge
    requires { (header_size ≤ length s.now) × Tabled s.now t }
    ensures { result ≡ cartridge_of (jlp_of (flags_of s.now)) (tables_at s.now t) }
{
    let a = t + FRAME_SIZE;
    let e = a + tables::TABLES_SIZE;
    tables::cartridge_of(tables::jlp_of(header::flags_of(s)), &s[a..e])
}

// After the checking pass: refusals 10, 11 and 13, then the storing pass and the answer.
fn finish(s: &[u8], found: Found, ram: &mut [u16], f: usize) -> Result<Loaded, Refusal>
    requires { (header_size ≤ length s.now) × Tabled s.now found.tables }
    ensures { (result ≡ finished_of s.now (lent ram.old) f found)
        × (ram.new ≡ finished_ram_of s.now found.tables ram.old f) }
{
    let flags = header::flags_of(s);
    let cartridge = cartridge_at(s, found.tables);
    tables::refused(flags, &cartridge.flips, places::lent_words(ram), f)?;
    lay_hunks(s, ram);
    Ok(Loaded {
        cartridge,
        compat: header::compat_of(flags),
        blocks: found.blocks,
        words: found.words,
    })
}

// Checks for 10, 11 and 13 of an image with its tables block at t, m words of RAM lent, and a flash of the size that its flags say.
fn judge_tables(s: &[u8], t: usize, m: usize) -> Result<(), Refusal>
    requires { (header_size ≤ length s.now) × Tabled s.now t }
    ensures { result ≡ passed (end_refusal s.now t m (flash_words (flags_of s.now))) }
{
    let flags = header::flags_of(s);
    let cartridge = cartridge_at(s, t);
    tables::refused(flags, &cartridge.flips, m, tables::flash_words(flags))
}

// Checks for what a load into m words of RAM refuses, with no RAM and no flash lent: 13 by its size alone.
pub fn refusal_for(image: &[u8], m: usize) -> Result<(), Refusal>
    ensures { result ≡ passed (refusal_by_size image.now m) }
{
    let found = check(image, m)?;
    judge_tables(image, found.tables, m)
}

// Loads an image into the words of a lent RAM that count, with a lent flash, which is left as found.
pub fn load(image: &[u8], ram: &mut [u16], flash: &[u16]) -> Result<Loaded, Refusal>
    ensures { (result ≡ load_answer (loading_of image.now (lent ram.old) (length flash.now)))
        × (ram.new ≡ load_ram_of image.now ram.old (length flash.now)) }
{
    let found = check(image, places::lent_words(ram))?;
    finish(image, found, ram, flash.len())
}

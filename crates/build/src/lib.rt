// The builder: an image from a publisher's BIN, CFG and label file (01, "How an image is laid out by the builder").
#![tactic(auto)]

ghost use Rattle.std.specs.Prelude.{◌+◌, ◌*◌, ◌≤◌, ◌≡◌, false, ltb, length, take};
ghost use Rattle.basics.specs.Lists.{part};
ghost use Rattle.places.specs.Limits.{lent_limit, line_limit, page_size};
ghost use Rattle.label.specs.Label.{wrong_label};
ghost use Rattle.save.specs.Writing.{save_answer, writing_of, written_of};
ghost use Rattle.rules.specs.Accepted.{Accepted};
ghost use Rattle.build.specs.Building.{uid_of, wrong_bin, outcome_of, building_of, built_of};
ghost use Rattle.build.specs.Code.Answers.{drawnContent, front_size, labelPut, labelledOf, labelledLeft, Pressed};

use basics::{Declined, refuse};
use blocks::FRAME_SIZE;
use header::{FLAGS_SIZE, UID_SIZE};
use layout::Drawing;
use lines::Line;
use places::{BIN_LIMIT, LENT_LIMIT, LINE_LIMIT, PAGE_SIZE};

// The header and the tables block, which stand before a label's block.
const FRONT_SIZE: usize = header::HEADER_SIZE + (FRAME_SIZE + tables::TABLES_SIZE);

// The flag bytes of every image that is built.
const FLAGS: [u8; FLAGS_SIZE] = [0x55, 0x05, 0, 0, 0, 0, 0, 0, 0, 0, 0, 0, 0, 0, 0, 0];

// An image that was built: its length, and the words of RAM that it needs.
#[derive(Clone, Copy)]
pub struct Built {
    pub length: usize,
    pub needed: u32,
}

// 21.
#[tactic(auto, unfolding(crate::specs::Building::wrong_bin))]
fn is_wrong(bin: &[u8]) -> bool
    ensures { result ≡ wrong_bin bin.now }
{
    bin.is_empty() || (bin.len() % 2 == 1 || BIN_LIMIT < bin.len())
}

// CRC32 of the BIN, then of the CFG.
fn uid_of(bin: &[u8], cfg: &[u8]) -> [u8; UID_SIZE]
    ensures { result ≡ uid_of bin.now cfg.now }
{
    let b = sums::crc32(bin).to_le_bytes();
    let c = sums::crc32(cfg).to_le_bytes();
    [b[0], b[1], b[2], b[3], c[0], c[1], c[2], c[3]]
}

// The image of what was drawn, with this UID, by the plain writer from a RAM that has its words.
fn write_drawing(
    out: &mut [u8],
    uid: &[u8; UID_SIZE],
    d: &Drawing,
    ram: &[u16],
) -> Result<usize, Declined>
    ensures { (result ≡ save_answer (writing_of out.old (drawnContent uid.now d.now ram.now)))
        × (out.new ≡ written_of out.old (drawnContent uid.now d.now ram.now)) }
{
    save::write(
        out,
        &FLAGS,
        uid,
        &d.mapping,
        &d.permissions,
        &d.flips,
        ram,
        &d.marks,
    )
}

// The bytes at a place that a header and a tables block take.
fn front_of(out: &[u8], at: usize) -> [u8; FRONT_SIZE]
    requires { at + front_size ≤ length out.now }
    ensures { result ≡ part out.now at (at + front_size) }
{
    let mut front = [0u8; FRONT_SIZE];
    front.copy_from_slice(&out[at..at + FRONT_SIZE]);
    front
}

// An image stands behind room for the label's block: what stands before its hunks goes to the front, and the block behind that.
fn put_label(out: &mut [u8], label: &[u8])
    requires { wrong_label label.now ≡ false }
    ensures { out.new ≡ labelPut label.now out.old }
{
    let k = FRAME_SIZE + label.len();
    let e = k + FRONT_SIZE;
    if out.len() < e {
        return;
    }
    let front = front_of(out, k);
    basics::put_bytes(&mut out[0..FRONT_SIZE], &front);
    // A label that passes refusal 12 fits this part of just its size, so nothing is declined.
    let _ = label::write(&mut out[FRONT_SIZE..e], label);
}

// The same with a label's block behind the tables; none is put for an empty label.
fn write_labelled(
    out: &mut [u8],
    uid: &[u8; UID_SIZE],
    d: &Drawing,
    ram: &[u16],
    label: &[u8],
) -> Result<usize, Declined>
    requires { wrong_label label.now ≡ false }
    ensures { (result ≡ save_answer (labelledOf label.now out.old (drawnContent uid.now d.now ram.now)))
        × (out.new ≡ labelledLeft label.now out.old (drawnContent uid.now d.now ram.now)) }
{
    if label.is_empty() {
        return write_drawing(out, uid, d, ram);
    }
    let k = FRAME_SIZE + label.len();
    let a = k.min(out.len());
    match write_drawing(&mut out[a..], uid, d, ram) {
        Ok(n) => {
            put_label(out, label);
            Ok(n + k)
        }
        Err(e) => Err(Declined {
            refusal: e.refusal,
            length: e.length + k,
        }),
    }
}

// The words of RAM that so many pages need.
fn words_of(pages: u16) -> u32
    ensures { result ≡ page_size * pages }
{
    PAGE_SIZE as u32 * u32::from(pages)
}

// 20, of so many pages.
fn is_large(pages: u16) -> bool
    ensures { result ≡ ltb lent_limit (page_size * pages) }
{
    LENT_LIMIT < PAGE_SIZE * usize::from(pages)
}

// The image of lines that the rules accept: laid out in a RAM of Locutus's size, and written. 20, where they need more; then 12, where
// the label is wrong.
fn press(
    bin: &[u8],
    cfg: &[u8],
    label: &[u8],
    lines: &[Line],
    out: &mut [u8],
) -> Result<Built, Declined>
    requires { Accepted bin.now (take line_limit lines.now) }
    ensures { Pressed bin.now cfg.now label.now (take line_limit lines.now) out.old result out.new }
{
    let mut ram = [0u16; LENT_LIMIT];
    let d = layout::lay_out(bin, lines, &mut ram);
    if is_large(d.pages) {
        return Err(refuse(20, 0).into());
    }
    if label::is_wrong(label) {
        return Err(refuse(12, 0).into());
    }
    let length = write_labelled(out, &uid_of(bin, cfg), &d, &ram, label)?;
    Ok(Built {
        length,
        needed: words_of(d.pages),
    })
}

// An image from a BIN, a CFG and a label, which may be empty, into the front of a lent buffer: 21 to 28, then 20, 12 and the image.
pub fn build(bin: &[u8], cfg: &[u8], label: &[u8], out: &mut [u8]) -> Result<Built, Declined>
    ensures { (result ≡ outcome_of (building_of bin.now cfg.now label.now out.old))
        × (out.new ≡ built_of bin.now cfg.now label.now out.old) }
{
    if is_wrong(bin) {
        return Err(refuse(21, 0).into());
    }
    let words = (bin.len() / 2) as u32;
    let read = cfg::read_cfg(cfg)?;
    let lines = read.entries();
    rules::judge(words, lines)?;
    press(bin, cfg, label, lines, out)
}

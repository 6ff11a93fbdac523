// Blocks: the frame of one, read and written, and its judgement (01, "File layout", "Load order").
#![tactic(auto)]

ghost use Rattle.std.specs.Prelude.{◌≡◌, not, ◌+◌, ◌≤◌, length, get_or, drop, eqb};
ghost use Rattle.sums.specs.Crc.{c324_poly, crc324_of};
ghost use Rattle.sums.specs.Tables.{tables_of, by_tables};
ghost use Rattle.hunk.specs.Hunk.{check_hunk};
ghost use Rattle.blocks.specs.Blocks.{frame_of, put_frame, payload_in, sum_said};
ghost use Rattle.blocks.specs.Frames.{frame_at};
ghost use Rattle.blocks.specs.Judged.{verdict, judged_of};
ghost use Rattle.blocks.specs.Code.Steps.{framed_at, sum_by, metadata_by, tables_by, checked_of};

use basics::{Refusal, byte_at, high, low, word_at};
use sums::TABLE_ENTRIES;

// The bytes before a payload, and of them the ones that the first checksum is of.
pub const FRAME_SIZE: usize = 8;

pub const START_SIZE: usize = 3;

// The longest payload that a block's length can say.
pub const PAYLOAD_LIMIT: usize = 65535;

// The types that a load looks at, and what stands where a type is expected at an image's end.
pub const ENCRYPTED_TYPE: u8 = 0x00;

pub const TABLES_TYPE: u8 = 0x01;

pub const HUNK_TYPE: u8 = 0x02;

pub const METADATA_TYPE: u8 = 0x03;

pub const END_MARK: u8 = 0xFF;

// Where an image's first block stands.
pub const FIRST_BLOCK: usize = 32;

// What stands where a block may start: the image's end, a block that is cut, or a type and the place of the next block.
#[derive(Clone, Copy)]
pub enum Frame {
    Over,
    Cut,
    Framed(u8, usize),
}

// A block of type t whose frame lies in the image.
#[tactic(auto, unfolding(crate::specs::Code::Steps::framed_at))]
fn framed(s: &[u8], p: usize, t: u8) -> Frame
    requires { p + 8 ≤ length s.now }
    ensures { result ≡ framed_at s.now p t }
{
    let e = p + START_SIZE;
    let next = p + FRAME_SIZE + usize::from(word_at(s, p + 1));
    if sums::dowcrc_short(&s[p..e]) != s[e] || s.len() < next {
        return Frame::Cut;
    }
    Frame::Framed(t, next)
}

// What stands at p.
#[tactic(auto, unfolding(crate::specs::Frames::frame_at, crate::specs::Frames::cut_at, crate::specs::Code::Steps::framed_at))]
pub fn frame_at(s: &[u8], p: usize) -> Frame
    ensures { result ≡ frame_at s.now p }
{
    if s.len() <= p || s[p] == END_MARK {
        return Frame::Over;
    }
    if s.len() - p < FRAME_SIZE {
        return Frame::Cut;
    }
    framed(s, p, s[p])
}

// Returns a block's payload; nothing of a block that ends before it.
pub fn payload_of(x: &[u8]) -> &[u8]
    ensures { result.now ≡ payload_in x.now }
{
    &x[FRAME_SIZE.min(x.len())..]
}

// Returns the sum of a block's payload by lent tables: CRC32/4 where the tables are those of CRC32/4.
pub fn payload_sum(c324: &[u32; TABLE_ENTRIES], x: &[u8]) -> u32
    ensures { (result ≡ by_tables c324.now 0 (payload_in x.now))
        × (c324.now ≡ tables_of c324_poly → result ≡ crc324_of (payload_in x.now)) }
{
    sums::sum_by(c324, 0, payload_of(x))
}

// Whether a block whose payload has this checksum says another.
fn differs(x: &[u8], sum: u32) -> bool
    ensures { result ≡ not (eqb sum (sum_said x.now)) }
{
    sum != u32::from(word_at(x, 4)) + 65536 * u32::from(word_at(x, 6))
}

// Refusal 6, of a block of type t whose payload has this checksum.
#[tactic(auto, unfolding(crate::specs::Code::Steps::sum_by))]
fn is_wrong_sum(x: &[u8], t: u8, sum: u32) -> bool
    ensures { result ≡ sum_by t sum x.now }
{
    (t == TABLES_TYPE || t == HUNK_TYPE) && differs(x, sum)
}

// Refusal 12, of a block of type t whose payload has this checksum. No other type's is looked at but those that 6 is asked of.
#[tactic(auto, unfolding(crate::specs::Code::Steps::metadata_by))]
fn is_wrong_metadata(x: &[u8], t: u8, sum: u32) -> bool
    ensures { result ≡ metadata_by t sum x.now }
{
    t == METADATA_TYPE && (differs(x, sum) || metadata::is_cut(payload_of(x)))
}

// Refusal 8, of a block of type t that says n bytes of payload.
#[tactic(auto, unfolding(crate::specs::Code::Steps::tables_by))]
fn is_wrong_tables(t: u8, n: u16, earlier: bool) -> bool
    ensures { result ≡ tables_by t n earlier }
{
    t == TABLES_TYPE && (usize::from(n) != tables::TABLES_SIZE || earlier)
}

// Refusal 9, of a hunk's block, at the byte where it breaks.
fn judge_hunk(x: &[u8], m: usize) -> Result<usize, Refusal>
    ensures { result ≡ checked_of (check_hunk (payload_in x.now) m) }
{
    match hunk::check(payload_of(x), m) {
        Ok(n) => Ok(n),
        Err(k) => Err(basics::refuse(9, FRAME_SIZE + k)),
    }
}

// Judges one block, whose payload has this checksum: refusals 7, 6 or 12, 8, 9, or the number of words that the block stores. `earlier` says
// that a tables block stands before it. A place counts from the block's first byte, as if the block stood at the front of a file.
#[tactic(auto, unfolding(crate::specs::Judged::judge_rows, crate::specs::Judged::judged_of, crate::specs::Code::Steps::sum_by, crate::specs::Code::Steps::metadata_by, crate::specs::Code::Steps::tables_by))]
pub fn judge(x: &[u8], sum: u32, m: usize, earlier: bool) -> Result<usize, Refusal>
    ensures { result ≡ verdict (judged_of m earlier 0 sum x.now) }
{
    let t = byte_at(x, 0);
    if t == ENCRYPTED_TYPE {
        return Err(basics::refuse(7, 0));
    }
    if is_wrong_sum(x, t, sum) {
        return Err(basics::refuse(6, 0));
    }
    if is_wrong_metadata(x, t, sum) {
        return Err(basics::refuse(12, 0));
    }
    if is_wrong_tables(t, word_at(x, 1), earlier) {
        return Err(basics::refuse(8, 0));
    }
    if t != HUNK_TYPE {
        return Ok(0);
    }
    judge_hunk(x, m)
}

// The eight bytes of a frame: of a payload of n bytes with this checksum.
#[tactic(auto, unfolding(crate::specs::Blocks::frame_of))]
fn frame_of(t: u8, n: u16, sum: u32) -> [u8; FRAME_SIZE]
    ensures { result ≡ frame_of t n sum }
{
    let lower = (sum % 65536) as u16;
    let upper = (sum / 65536) as u16;
    let start = [t, low(n), high(n)];
    [
        t,
        low(n),
        high(n),
        sums::dowcrc_short(&start),
        low(lower),
        high(lower),
        low(upper),
        high(upper),
    ]
}

// A block's frame, before a payload that stands from byte 8 on and has this checksum.
#[tactic(auto, using(basics::specs::Laws::Puts::put_room), unfolding(crate::specs::Blocks::put_frame, crate::specs::Blocks::frame_of))]
pub fn put_frame(out: &mut [u8], t: u8, sum: u32)
    ensures { out.new ≡ put_frame t sum out.old }
{
    let long = out.len();
    if long < FRAME_SIZE || FRAME_SIZE + PAYLOAD_LIMIT < long {
        return;
    }
    let bytes = frame_of(t, (long - FRAME_SIZE) as u16, sum);
    basics::put_bytes(out, &bytes);
}

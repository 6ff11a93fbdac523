// The header of an image, both ways: checked and written; and the compatibility fields of its flags.
#![tactic(auto)]

ghost use Rattle.std.specs.Prelude.{◌≤◌, ◌≡◌, length};
ghost use Rattle.basics.specs.Lists.{put_front};
ghost use Rattle.basics.specs.Refusals.{passed};
ghost use Rattle.header.specs.Header.{header_size, flags_size, uid_size, header_of, flags_of, wrong_length, wrong_magic, wrong_version, wrong_header_sum, header_refusal};
ghost use Rattle.header.specs.Flags.{jlp_field, flash_size, setting_of, stated_at, number_of, compat_of, no_compat};

use basics::{Refusal, byte_at, put_bytes};
use places::IMAGE_LIMIT;

// The magic number, at the front; the version; and the reserved bytes, as they are written.
pub const MAGIC: [u8; 3] = [0x4C, 0x54, 0x4F];

pub const VERSION: u8 = 0x01;

pub const RESERVED: [u8; 3] = [0, 0, 0];

// Where each other field starts, and the header ends.
pub const VERSION_AT: usize = 3;

pub const FLAGS_AT: usize = 4;

pub const UID_AT: usize = 20;

pub const RESERVED_AT: usize = 28;

pub const SUM_AT: usize = 31;

pub const HEADER_SIZE: usize = 32;

// The bytes of the flags and of the UID.
pub const FLAGS_SIZE: usize = UID_AT - FLAGS_AT;

pub const UID_SIZE: usize = RESERVED_AT - UID_AT;

// What an image says of the TutorVision: one of the four settings of a compatibility field, or nothing.
#[derive(Clone, Copy)]
pub enum TutorVision {
    Incompatible,
    Tolerates,
    Enhanced,
    Requires,
    NotStated,
}

// The compatibility fields, two bits each; and what the last of them says.
#[derive(Clone, Copy)]
pub struct Compat {
    pub intellivoice: u8,
    pub ecs: u8,
    pub intellivision2: u8,
    pub keyboard: u8,
    pub tutorvision: TutorVision,
}

// The setting that two bits name.
#[tactic(auto, unfolding(crate::specs::Flags::setting_of))]
fn setting_of(bits: u8) -> TutorVision
    ensures { result ≡ setting_of bits }
{
    match bits {
        0 => TutorVision::Incompatible,
        1 => TutorVision::Tolerates,
        2 => TutorVision::Enhanced,
        _ => TutorVision::Requires,
    }
}

// What two bits say of the TutorVision at a version of the compatibility fields.
#[tactic(auto, unfolding(crate::specs::Flags::stated_at))]
fn stated_at(version: u8, bits: u8) -> TutorVision
    ensures { result ≡ stated_at version bits }
{
    if version == 0 {
        return TutorVision::NotStated;
    }
    setting_of(bits)
}

// Each answer as a number, for those who cannot be given an enum.
pub fn number_of(t: TutorVision) -> u8
    ensures { result ≡ number_of t }
{
    match t {
        TutorVision::Incompatible => 0,
        TutorVision::Tolerates => 1,
        TutorVision::Enhanced => 2,
        TutorVision::Requires => 3,
        TutorVision::NotStated => 4,
    }
}

// Returns the 16 flag bytes of an image, or as many of them as an image that ends earlier has.
pub fn flags_of(s: &[u8]) -> &[u8]
    ensures { result.now ≡ flags_of s.now }
{
    &s[FLAGS_AT.min(s.len())..UID_AT.min(s.len())]
}

// The JLP field.
pub fn jlp_field(flags: &[u8]) -> u8
    ensures { result ≡ jlp_field flags.now }
{
    byte_at(flags, 2) % 4
}

// The size of the JLP flash, in sectors.
pub fn flash_size(flags: &[u8]) -> u16
    ensures { result ≡ flash_size flags.now }
{
    u16::from(byte_at(flags, 2)) / 64 + 4 * u16::from(byte_at(flags, 3))
}

#[tactic(auto, unfolding(crate::specs::Flags::compat_of))]
pub fn compat_of(flags: &[u8]) -> Compat
    ensures { result ≡ compat_of flags.now }
{
    let x = byte_at(flags, 0);
    let y = byte_at(flags, 1);
    Compat {
        intellivoice: x % 4,
        ecs: x / 4 % 4,
        intellivision2: x / 16 % 4,
        keyboard: x / 64 % 4,
        tutorvision: stated_at(y % 4, y / 4 % 4),
    }
}

// Those of a refused load.
pub fn no_compat() -> Compat
    ensures { result ≡ no_compat }
{
    Compat {
        intellivoice: 0,
        ecs: 0,
        intellivision2: 0,
        keyboard: 0,
        tutorvision: TutorVision::NotStated,
    }
}

// Refusals 1 to 4, each by itself.
fn wrong_length(s: &[u8]) -> bool
    ensures { result ≡ wrong_length s.now }
{
    s.len() < HEADER_SIZE || IMAGE_LIMIT < s.len()
}

fn wrong_magic(s: &[u8]) -> bool
    ensures { result ≡ wrong_magic s.now }
{
    for i in 0..VERSION_AT {
        if byte_at(s, i) != MAGIC[i] {
            return true;
        }
    }
    false
}

fn wrong_version(s: &[u8]) -> bool
    ensures { result ≡ wrong_version s.now }
{
    byte_at(s, VERSION_AT) != VERSION
}

fn wrong_sum(s: &[u8]) -> bool
    requires { header_size ≤ length s.now }
    ensures { result ≡ wrong_header_sum s.now }
{
    sums::dowcrc_short(&s[..SUM_AT]) != s[SUM_AT]
}

// Checks an image's header: refusals 1 to 4, in their order.
#[tactic(auto, unfolding(crate::specs::Header::header_rows))]
pub fn check(s: &[u8]) -> Result<(), Refusal>
    ensures { result ≡ passed (header_refusal s.now) }
{
    if wrong_length(s) {
        return Err(basics::refuse(1, 0));
    }
    if wrong_magic(s) {
        return Err(basics::refuse(2, 0));
    }
    if wrong_version(s) {
        return Err(basics::refuse(3, 0));
    }
    if wrong_sum(s) {
        return Err(basics::refuse(4, 0));
    }
    Ok(())
}

// Returns the number of bytes in the header of these flags and this UID.
pub fn size(flags: &[u8; FLAGS_SIZE], uid: &[u8; UID_SIZE]) -> usize
    ensures { (result ≡ length (header_of flags.now uid.now)) × (result ≡ header_size) }
{
    HEADER_SIZE
}

// Writes the header at the front of a buffer that has room for it: each field in its own part, then their checksum.
pub fn write(out: &mut [u8], flags: &[u8; FLAGS_SIZE], uid: &[u8; UID_SIZE])
    ensures { out.new ≡ put_front (header_of flags.now uid.now) out.old }
{
    if out.len() < HEADER_SIZE {
        return;
    }
    put_bytes(&mut out[0..VERSION_AT], &MAGIC);
    put_bytes(&mut out[VERSION_AT..FLAGS_AT], &[VERSION]);
    put_bytes(&mut out[FLAGS_AT..UID_AT], flags);
    put_bytes(&mut out[UID_AT..RESERVED_AT], uid);
    put_bytes(&mut out[RESERVED_AT..SUM_AT], &RESERVED);
    out[SUM_AT] = sums::dowcrc_short(&out[..SUM_AT]);
}

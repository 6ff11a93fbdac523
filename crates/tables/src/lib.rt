// The payload of a tables block, both ways: the cartridge of its tables, and tables written; and refusals 10, 11 and 13.
#![tactic(auto)]

ghost use Rattle.std.specs.Prelude.{◌≤◌, ◌≡◌, ◌||◌, length};
ghost use Rattle.basics.specs.Lists.{put_front};
ghost use Rattle.basics.specs.Refusals.{passed};
ghost use Rattle.places.specs.Limits.{paragraphs};
ghost use Rattle.cart.specs.Cartridges.{no_cartridge};
ghost use Rattle.tables.specs.Tables.{tables, tables_payload, tables_size, words_at, bytes_at, sectors_of, jlp_of, cartridge_of, flips_one, unsupported, lacks_ram, flash_words, oversized, mislent, tables_refusal};

use basics::{Refusal, byte_at, put_bytes, put_words, word_at};
use cart::Cartridge;
use jlp::Jlp;
use places::{CHAPTER_PAGES, PARAGRAPHS};
use std::array;

// Where the permissions and the flips stand behind the mapping, and the bytes of all three.
pub const PERMISSIONS_AT: usize = 2 * PARAGRAPHS;

pub const FLIPS_AT: usize = PERMISSIONS_AT + PARAGRAPHS;

pub const TABLES_SIZE: usize = FLIPS_AT + 2 * PARAGRAPHS;

// A table of words, and of bytes, that stands at a place of the payload.
fn words_at(t: &[u8], at: usize) -> [u16; PARAGRAPHS]
    requires { at ≤ tables_size }
    ensures { result ≡ words_at t.now at }
{
    array::from_fn(|i| word_at(t, at + 2 * i))
}

fn bytes_at(t: &[u8], at: usize) -> [u8; PARAGRAPHS]
    requires { at ≤ tables_size }
    ensures { result ≡ bytes_at t.now at }
{
    array::from_fn(|i| byte_at(t, at + i))
}

// The sectors of flash that flags give: field 2 or 3 has some.
fn sectors_of(flags: &[u8]) -> u16
    ensures { result ≡ sectors_of flags.now }
{
    if header::jlp_field(flags) < 2 {
        return 0;
    }
    header::flash_size(flags)
}

// The accelerators that are loaded with these flags.
pub fn jlp_of(flags: &[u8]) -> Jlp
    ensures { result ≡ jlp_of flags.now }
{
    jlp::fresh(header::jlp_field(flags), sectors_of(flags))
}

// The cartridge of these accelerators and a tables block's payload.
#[tactic(auto, unfolding(crate::specs::Tables::cartridge_of, crate::specs::Tables::tables_in))]
pub fn cartridge_of(j: Jlp, t: &[u8]) -> Cartridge
    ensures { result ≡ cartridge_of j t.now }
{
    cart::fresh(
        j,
        words_at(t, 0),
        bytes_at(t, PERMISSIONS_AT),
        words_at(t, FLIPS_AT),
    )
}

// The cartridge of a refused load.
pub fn no_cartridge() -> Cartridge
    ensures { result ≡ no_cartridge }
{
    let words = [0u16; PARAGRAPHS];
    let bytes = [0u8; PARAGRAPHS];
    cart::fresh(jlp::fresh(0, 0), words, bytes, words)
}

// Returns the number of bytes in the payload of these tables.
pub fn size<'a>(
    mapping: &[u16; PARAGRAPHS],
    permissions: &'a [u8; PARAGRAPHS],
    flips: &'a [u16; PARAGRAPHS],
) -> usize
    ensures { (result ≡ length (tables_payload (tables mapping.now permissions.now flips.now))) × (result ≡ tables_size) }
{
    TABLES_SIZE
}

// Writes the tables at the front of a buffer that has room for them: each into its own part.
pub fn write<'a>(
    out: &mut [u8],
    mapping: &[u16; PARAGRAPHS],
    permissions: &'a [u8; PARAGRAPHS],
    flips: &'a [u16; PARAGRAPHS],
)
    ensures { out.new ≡ put_front (tables_payload (tables mapping.now permissions.now flips.now)) out.old }
{
    if out.len() < TABLES_SIZE {
        return;
    }
    put_words(&mut out[0..PERMISSIONS_AT], mapping);
    put_bytes(&mut out[PERMISSIONS_AT..FLIPS_AT], permissions);
    put_words(&mut out[FLIPS_AT..TABLES_SIZE], flips);
}

// PFE in chapter 1.
fn has_flip(flips: &[u16; PARAGRAPHS]) -> bool
    ensures { result ≡ flips_one flips.now }
{
    for y in 0..CHAPTER_PAGES {
        if flips[CHAPTER_PAGES + y] / 8 % 2 == 1 {
            return true;
        }
    }
    false
}

// Refusal 10.
#[tactic(auto, unfolding(crate::specs::Tables::unsupported))]
fn is_unsupported(flags: &[u8], flips: &[u16; PARAGRAPHS]) -> bool
    ensures { result ≡ unsupported flags.now flips.now }
{
    byte_at(flags, 4) % 2 == 1 || has_flip(flips)
}

// Refusal 11.
#[tactic(auto, unfolding(crate::specs::Tables::lacks_ram))]
fn lacks_ram(flags: &[u8], m: usize) -> bool
    ensures { result ≡ lacks_ram flags.now m }
{
    header::jlp_field(flags) != 0 && m < jlp::RAM_WORDS
}

// The words of the flash that the size asks.
pub fn flash_words(flags: &[u8]) -> usize
    ensures { result ≡ flash_words flags.now }
{
    flash::SECTOR_WORDS * usize::from(header::flash_size(flags))
}

// Refusal 13.
#[tactic(auto, unfolding(crate::specs::Tables::oversized, crate::specs::Tables::mislent))]
fn misfits(flags: &[u8], f: usize) -> bool
    ensures { result ≡ (oversized flags.now || mislent flags.now f) }
{
    header::jlp_field(flags) >= 2
        && (flash::SECTOR_LIMIT < usize::from(header::flash_size(flags)) || f != flash_words(flags))
}

// Checks flags and flip table, with m words of RAM and f of flash lent: refusals 10, 11 and 13, in their order.
#[tactic(auto, unfolding(crate::specs::Tables::tables_rows))]
pub fn refused(flags: &[u8], flips: &[u16; PARAGRAPHS], m: usize, f: usize) -> Result<(), Refusal>
    ensures { result ≡ passed (tables_refusal flags.now flips.now m f) }
{
    if is_unsupported(flags, flips) {
        return Err(basics::refuse(10, 0));
    }
    if lacks_ram(flags, m) {
        return Err(basics::refuse(11, 0));
    }
    if misfits(flags, f) {
        return Err(basics::refuse(13, 0));
    }
    Ok(())
}

// The proved crates as a C program calls them: a slice is a pointer and a length, a struct is laid out as C's. Here the sums, load and build, and runs of reads
// and writes; in the rooms one access at a time, all of a cartridge in one struct, the writer, and what else the desk does. include/luigi.h declares them all.
// Tables that act together are parameters of their own wherever C lends each by a pointer of its own.
#![tactic(auto)]

mod desk;
mod lent;
mod state;
mod writer;

ghost use Rattle.std.specs.Prelude.{min, ◌≤◌, ◌≡◌, length};
ghost use Rattle.places.specs.Limits.{lent};
ghost use Rattle.sums.specs.Crc.{dowcrc_of, crc324_of, crc32_of};
ghost use Rattle.cart.specs.Cartridges.{fresh};
ghost use Rattle.lending.specs.Lending.{flash_for};
ghost use Rattle.load.specs.Load.{loading_from, loading_of, load_ram_of};
ghost use Rattle.build.specs.Building.{building_from, building_of, built_of};
ghost use Rattle.registers.specs.Words.{jlp_from};
ghost use Rattle.exports.specs.Loads.{fields_of, loaded_of};
ghost use Rattle.exports.specs.Builds.{built_as};
ghost use Rattle.exports.specs.Runs.{active_as, answers_in, carried, numbered, numbered_writes, active_after, ram_after, flash_after};

use basics::{Declined, Refusal};
use cart::Cartridge;
use header::Compat;
use places::{Console, FLIP_ENTRIES, PARAGRAPHS};
use registers::{ACCELERATOR_WORDS, jlp_from, words_of};

// The three checksums.
#[unsafe(no_mangle)]
pub extern "C" fn luigi_dowcrc(s: &[u8]) -> u8
    ensures { result ≡ dowcrc_of s.now }
{
    sums::dowcrc(s)
}

#[unsafe(no_mangle)]
pub extern "C" fn luigi_crc324(s: &[u8]) -> u32
    ensures { result ≡ crc324_of s.now }
{
    sums::crc324(s)
}

#[unsafe(no_mangle)]
pub extern "C" fn luigi_crc32(s: &[u8]) -> u32
    ensures { result ≡ crc32_of s.now }
{
    sums::crc32(s)
}

// What a load answers, laid out as C's; the compatibility fields in 01's order, the last of them 4 where nothing is stated.
#[repr(C)]
#[derive(Clone, Copy)]
pub struct Loaded {
    pub number: u32,
    pub place: usize,
    pub blocks: usize,
    pub words: usize,
    pub compat: [u8; 5],
    pub mapping: [u16; PARAGRAPHS],
    pub permissions: [u8; PARAGRAPHS],
    pub flips: [u16; FLIP_ENTRIES],
    pub readable: u16,
    pub accelerators: [u16; ACCELERATOR_WORDS],
}

fn compat_of(c: Compat) -> [u8; 5]
    ensures { result ≡ fields_of c }
{
    [
        c.intellivoice,
        c.ecs,
        c.intellivision2,
        c.keyboard,
        header::number_of(c.tutorvision),
    ]
}

// The arrays go through variables, here and in `active_as` and `state_of`: tried straight from field to field, which the check does not cover.
// This and the other conversions into C's structs are functions and no `From`: each has one caller, which `into` would make no plainer.
fn laid(r: Refusal, l: load::Loaded) -> Loaded
    ensures { result ≡ loaded_of (record { refusal = r; cartridge = l.cartridge; compat = l.compat; blocks = l.blocks; words = l.words }) }
{
    let cartridge = l.cartridge;
    let mapping = cartridge.mapping;
    let permissions = cartridge.permissions;
    let flips = cartridge.flips;
    let accelerators = words_of(cartridge.jlp);
    Loaded {
        number: r.number,
        place: r.place,
        blocks: l.blocks,
        words: l.words,
        compat: compat_of(l.compat),
        mapping,
        permissions,
        flips,
        readable: l.cartridge.readable,
        accelerators,
    }
}

// A refused load has its refusal, zero in all else, and nothing said of the TutorVision.
fn answered(answer: Result<load::Loaded, Refusal>) -> Loaded
    ensures { result ≡ loaded_of (loading_from answer) }
{
    match answer {
        Ok(l) => laid(basics::no_refusal(), l),
        Err(r) => {
            let none = load::Loaded {
                cartridge: tables::no_cartridge(),
                compat: header::no_compat(),
                blocks: 0,
                words: 0,
            };
            laid(r, none)
        }
    }
}

// The words of flash that a load is to be lent: a host asks before it loads. None where the image has no JLP flash, or is too short to ask.
#[unsafe(no_mangle)]
pub extern "C" fn luigi_flash_words(image: &[u8]) -> usize
    ensures { result ≡ flash_for image.now }
{
    lending::flash_for(image)
}

// The load of an image into a lent RAM, with a lent flash.
#[unsafe(no_mangle)]
pub extern "C" fn luigi_load(image: &[u8], ram: &mut [u16], flash: &[u16]) -> Loaded
    ensures { (result ≡ loaded_of (loading_of image.now (lent ram.old) (length flash.now)))
        × (ram.new ≡ load_ram_of image.now ram.old (length flash.now)) }
{
    answered(load::load(image, ram, flash))
}

// What building answers, laid out as C's.
#[repr(C)]
#[derive(Clone, Copy)]
pub struct Built {
    pub number: u32,
    pub needed: u32,
    pub place: usize,
    pub length: usize,
}

fn built_as(r: Result<build::Built, Declined>) -> Built
    ensures { result ≡ built_as (building_from r) }
{
    match r {
        Ok(b) => Built {
            number: 0,
            needed: b.needed,
            place: 0,
            length: b.length,
        },
        Err(d) => Built {
            number: d.refusal.number,
            needed: 0,
            place: d.refusal.place,
            length: d.length,
        },
    }
}

// An image from a BIN, a CFG and a label, which may be empty, into the front of a lent buffer.
#[unsafe(no_mangle)]
pub extern "C" fn luigi_build(bin: &[u8], cfg: &[u8], label: &[u8], out: &mut [u8]) -> Built
    ensures { (result ≡ built_as (building_of bin.now cfg.now label.now out.old))
        × (out.new ≡ built_of bin.now cfg.now label.now out.old) }
{
    built_as(build::build(bin, cfg, label, out))
}

// The active tables, how many paragraphs can be read, and the accelerators, laid out as C's.
#[repr(C)]
#[derive(Clone, Copy)]
pub struct Active {
    pub mapping: [u16; PARAGRAPHS],
    pub permissions: [u8; PARAGRAPHS],
    pub readable: u16,
    pub accelerators: [u16; ACCELERATOR_WORDS],
}

// A cartridge with these accelerators, as it is loaded with these tables.
fn fresh<'a>(
    mapping: &'a [u16; PARAGRAPHS],
    permissions: &'a [u8; PARAGRAPHS],
    flips: &'a [u16; FLIP_ENTRIES],
    accelerators: &'a [u16; ACCELERATOR_WORDS],
) -> Cartridge
    ensures { result ≡ fresh (jlp_from accelerators.now) mapping.now permissions.now flips.now }
{
    cart::fresh(jlp_from(accelerators), *mapping, *permissions, *flips)
}

fn active_as(c: Cartridge) -> Active
    ensures { result ≡ active_as c }
{
    let mapping = c.mapping;
    let permissions = c.permissions;
    let accelerators = words_of(c.jlp);
    Active {
        mapping,
        permissions,
        readable: c.readable,
        accelerators,
    }
}

// Reads at the addresses of `at`, one after the other, by these tables and accelerators; the answers go to the first words of `out`. An index runs
// here and in the three loops below, and no zip: what an adapter of `iter_mut` leaves in a slice is not known to a proof.
#[unsafe(no_mangle)]
pub extern "C" fn luigi_reads<'a>(
    mapping: &'a [u16; PARAGRAPHS],
    permissions: &'a [u8; PARAGRAPHS],
    accelerators: &'a [u16; ACCELERATOR_WORDS],
    ram: &[u16],
    at: &[u16],
    out: &mut [u32],
)
    ensures { out.new ≡ answers_in (jlp_from accelerators.now) mapping.now permissions.now ram.now at.now out.old }
{
    let on = registers::is_on(accelerators);
    for i in 0..at.len().min(out.len()) {
        let a = Console(at[i]);
        out[i] = match direct::hear(mapping, permissions, on, ram, a) {
            Some(n) => n,
            None => direct::read(mapping, permissions, accelerators, ram, a),
        };
    }
}

// The same, with the cartridge by value at each read.
#[unsafe(no_mangle)]
pub extern "C" fn luigi_reads_by_value<'a>(
    mapping: &'a [u16; PARAGRAPHS],
    permissions: &'a [u8; PARAGRAPHS],
    flips: &'a [u16; FLIP_ENTRIES],
    accelerators: &'a [u16; ACCELERATOR_WORDS],
    ram: &[u16],
    at: &[u16],
    out: &mut [u32],
)
    ensures { out.new ≡ answers_in (jlp_from accelerators.now) mapping.now permissions.now ram.now at.now out.old }
{
    let c = fresh(mapping, permissions, flips, accelerators);
    for i in 0..at.len().min(out.len()) {
        out[i] = cart::heard(cart::read(c, ram, Console(at[i])));
    }
}

fn least_of(a: usize, b: usize, c: usize) -> usize
    ensures { (result ≡ min (min a b) c) × (result ≤ a) × (result ≤ b) × (result ≤ c) }
{
    a.min(b).min(c)
}

// Writes of the words of `value` to the addresses of `at`, one after the other, by these tables, the number of paragraphs that can be read and the
// accelerators; how many mapping entries each has assigned goes to the first bytes of `assigned`.
#[unsafe(no_mangle)]
pub extern "C" fn luigi_writes(
    mapping: &mut [u16; PARAGRAPHS],
    permissions: &mut [u8; PARAGRAPHS],
    flips: &[u16; FLIP_ENTRIES],
    readable: &mut u16,
    accelerators: &mut [u16; ACCELERATOR_WORDS],
    ram: &mut [u16],
    flash: &mut [u16],
    at: &[u16],
    value: &[u16],
    assigned: &mut [u8],
)
    ensures { (readable.new ≡ (active_after (carried mapping.old permissions.old flips.now readable.old (jlp_from accelerators.old)) ram.old flash.old at.now value.now (numbered_writes at.now value.now assigned.old)).readable)
        × (mapping.new ≡ (active_after (carried mapping.old permissions.old flips.now readable.old (jlp_from accelerators.old)) ram.old flash.old at.now value.now (numbered_writes at.now value.now assigned.old)).mapping)
        × (permissions.new ≡ (active_after (carried mapping.old permissions.old flips.now readable.old (jlp_from accelerators.old)) ram.old flash.old at.now value.now (numbered_writes at.now value.now assigned.old)).permissions)
        × (accelerators.new ≡ (active_after (carried mapping.old permissions.old flips.now readable.old (jlp_from accelerators.old)) ram.old flash.old at.now value.now (numbered_writes at.now value.now assigned.old)).accelerators)
        × (ram.new ≡ ram_after (carried mapping.old permissions.old flips.now readable.old (jlp_from accelerators.old)) ram.old flash.old at.now value.now (numbered_writes at.now value.now assigned.old))
        × (flash.new ≡ flash_after (carried mapping.old permissions.old flips.now readable.old (jlp_from accelerators.old)) ram.old flash.old at.now value.now (numbered_writes at.now value.now assigned.old))
        × (assigned.new ≡ numbered (carried mapping.old permissions.old flips.now readable.old (jlp_from accelerators.old)) ram.old flash.old at.now value.now (numbered_writes at.now value.now assigned.old) assigned.old) }
{
    registers::tidy(accelerators);
    for i in 0..least_of(at.len(), value.len(), assigned.len()) {
        let a = Console(at[i]);
        let v = value[i];
        let on = registers::is_on(accelerators);
        if direct::store(mapping, permissions, on, ram, a, v) {
            assigned[i] = 0;
            continue;
        }
        assigned[i] = direct::write(
            mapping,
            permissions,
            flips,
            readable,
            accelerators,
            ram,
            flash,
            a,
            v,
        );
    }
}

// The same without the numbers, with the cartridge by value at each write.
#[unsafe(no_mangle)]
pub extern "C" fn luigi_writes_by_value<'a>(
    mapping: &'a [u16; PARAGRAPHS],
    permissions: &'a [u8; PARAGRAPHS],
    flips: &'a [u16; FLIP_ENTRIES],
    accelerators: &'a [u16; ACCELERATOR_WORDS],
    ram: &mut [u16],
    flash: &mut [u16],
    at: &[u16],
    value: &[u16],
) -> Active
    ensures { (result ≡ active_after (fresh (jlp_from accelerators.now) mapping.now permissions.now flips.now) ram.old flash.old at.now value.now (min (length at.now) (length value.now)))
        × (ram.new ≡ ram_after (fresh (jlp_from accelerators.now) mapping.now permissions.now flips.now) ram.old flash.old at.now value.now (min (length at.now) (length value.now)))
        × (flash.new ≡ flash_after (fresh (jlp_from accelerators.now) mapping.now permissions.now flips.now) ram.old flash.old at.now value.now (min (length at.now) (length value.now))) }
{
    let mut c = fresh(mapping, permissions, flips, accelerators);
    for i in 0..at.len().min(value.len()) {
        c = cart::write(c, ram, flash, Console(at[i]), value[i]).cartridge;
    }
    active_as(c)
}

// The cartridge that answers the console: reads, writes and resets over lent RAM and flash (01, "The machine"; 02, W-206 and W-209).
#![tactic(auto)]

ghost use Rattle.std.specs.Prelude.{◌≡◌, ◌+◌, ◌%◌, ◌≤◌, length, if◌then◌else◌, slice_index};
ghost use Rattle.places.specs.Limits.{paragraphs};
ghost use Rattle.switches.specs.Flips.{active, asks, flip_from, flip_size, flipped};
ghost use Rattle.switches.specs.Banks.{register_at};
ghost use Rattle.flash.specs.Flash.{memories, acted};
ghost use Rattle.flash.specs.Registers.{command_of};
ghost use Rattle.cart.specs.declared.Taker.TheVariants.{Ram};
ghost use Rattle.cart.specs.Code.Takers.{banked_only, acting_only};
ghost use Rattle.cart.specs.Cells.{READ, locate, rights_of, cell_at, window_cell};
ghost use Rattle.cart.specs.Readable.{readable_in, readable_of, recounted};
ghost use Rattle.cart.specs.Reads.{silent, heard, fetched, register_source, window_source, mapped_source, source_of, read_by};
ghost use Rattle.cart.specs.Writes.{stored_word, stored, flip_taker, mapped_taker, window_taker, taker_of, left_by, assigned_by, readable_by, leaves, leaves_ram, leaves_flash, assigned, leaves_readable};
ghost use Rattle.cart.specs.Cartridges.{fresh, read_of, written_of, write_ram_of, write_flash_of, reset_of};

use flash::Saves;
use jlp::Jlp;
use places::{Console, FLIP_ENTRIES, LENT_LIMIT, Locutus, PARAGRAPH_SIZE, PARAGRAPHS};

// The tables as loaded, the tables as they act now, the flip table, how many paragraphs can be read now, and the accelerators.
#[derive(Clone, Copy)]
pub struct Cartridge {
    pub initial_mapping: [u16; PARAGRAPHS],
    pub initial_permissions: [u8; PARAGRAPHS],
    pub mapping: [u16; PARAGRAPHS],
    pub permissions: [u8; PARAGRAPHS],
    pub flips: [u16; FLIP_ENTRIES],
    pub readable: u16,
    pub jlp: Jlp,
}

// What a write leaves of the cartridge, and how many active mapping entries it assigned.
#[derive(Clone, Copy)]
pub struct Written {
    pub cartridge: Cartridge,
    pub assigned: u8,
}

// What a permission byte allows.
#[derive(Clone, Copy)]
pub struct Rights {
    pub read: bool,
    pub write: bool,
    pub narrow: bool,
}

// A word of the RAM as the console reaches it: where it is, and what may be done with it.
#[derive(Clone, Copy)]
pub struct Cell {
    pub location: Locutus,
    pub rights: Rights,
}

// Who answers a read: nobody, a register that holds this word, or a word of the RAM.
#[derive(Clone, Copy)]
pub enum Source {
    Nobody,
    Latched(u16),
    Ram(Cell),
}

// Who takes a write: the accelerators' registers; the half-page with this first paragraph, which is switched to this paragraph number; the flip entry of this
// number; or a word of the RAM.
#[derive(Clone, Copy)]
pub enum Taker {
    Accelerators,
    Bank(u8, u8),
    Flip(u8),
    Ram(Cell),
}

// One row: what its three digits allow.
fn allowing(narrow: bool, write: bool, read: bool) -> Rights
    ensures { result ≡ record { read = read; write = write; narrow = narrow } }
{
    Rights {
        read,
        write,
        narrow,
    }
}

// The permission decision as the manual has it: a row for each setting of NARROW, WRITE and READ, bits 2 to 0. No other bit chooses a row.
pub fn rights_of(permission: u8) -> Rights
    ensures { result ≡ rights_of permission }
{
    // the last row is 0b111
    match permission % 8 {
        0b000 => allowing(false, false, false),
        0b001 => allowing(false, false, true),
        0b010 => allowing(false, true, false),
        0b011 => allowing(false, true, true),
        0b100 => allowing(true, false, false),
        0b101 => allowing(true, false, true),
        0b110 => allowing(true, true, false),
        _ => allowing(true, true, true),
    }
}

// Where a mapping entry puts a console address.
pub fn location(entry: u16, at: Console) -> Locutus
    ensures { result ≡ locate entry at }
{
    let a = at.0 as usize;
    Locutus(((entry as usize * PARAGRAPH_SIZE + a % PARAGRAPH_SIZE) % LENT_LIMIT) as u32)
}

// The word that an address reaches by the active tables.
pub fn cell_at<'a>(
    mapping: &'a [u16; PARAGRAPHS],
    permissions: &'a [u8; PARAGRAPHS],
    at: Console,
) -> Cell
    ensures { result ≡ cell_at (active mapping.now permissions.now) at }
{
    let p = at.0 as usize / PARAGRAPH_SIZE;
    Cell {
        location: location(mapping[p], at),
        rights: rights_of(permissions[p]),
    }
}

// The word of JLP RAM at an address of the accelerators' window.
pub fn window_cell(at: Console) -> Cell
    ensures { result ≡ window_cell at }
{
    let location = jlp::location(at);
    let rights = allowing(false, true, true);
    Cell { location, rights }
}

// A register's word, or nobody.
fn register_source(heard: Option<u16>) -> Source
    ensures { result ≡ register_source heard }
{
    match heard {
        Some(w) => Source::Latched(w),
        None => Source::Nobody,
    }
}

// In the accelerators' window: their RAM, or a register that answers, or nobody.
fn window_source(j: Jlp, at: Console) -> Source
    ensures { result ≡ window_source j at }
{
    if jlp::in_ram(at) {
        return Source::Ram(window_cell(at));
    }
    register_source(jlp::read(j, at))
}

// The three ranges where every read is silent.
pub fn is_silent(at: Console) -> bool
    ensures { result ≡ silent at }
{
    let a = at.0;
    a < 0x500 || a / 0x1000 == 1 || a / 0x1000 == 3
}

// By the tables: nobody in the silent ranges, else the word that the address reaches.
fn mapped_source<'a>(
    mapping: &'a [u16; PARAGRAPHS],
    permissions: &'a [u8; PARAGRAPHS],
    at: Console,
) -> Source
    ensures { result ≡ mapped_source (active mapping.now permissions.now) at }
{
    if is_silent(at) {
        return Source::Nobody;
    }
    Source::Ram(cell_at(mapping, permissions, at))
}

// Who answers a read: in their window the accelerators, while they are on.
fn source_of<'a>(
    mapping: &'a [u16; PARAGRAPHS],
    permissions: &'a [u8; PARAGRAPHS],
    j: Jlp,
    at: Console,
) -> Source
    ensures { result ≡ source_of j (active mapping.now permissions.now) at }
{
    if j.on && jlp::in_window(at) {
        return window_source(j, at);
    }
    mapped_source(mapping, permissions, at)
}

// The word of a cell that may be read and lies in the lent RAM.
pub fn fetch(cell: Cell, ram: &[u16]) -> Option<u16>
    ensures { result ≡ fetched cell ram.now }
{
    let i = cell.location.0 as usize;
    if cell.rights.read && i < places::lent_words(ram) {
        Some(ram[i])
    } else {
        None
    }
}

// Silence as a number: above every word.
pub const SILENCE: u32 = 0x10000;

// Returns what a read gets as one number: a word as it is, or silence.
pub fn heard(a: Option<u16>) -> u32
    ensures { result ≡ heard a }
{
    a.map_or(SILENCE, u32::from)
}

// A read by the active tables, lent, and the accelerators: no table of the cartridge is copied.
pub fn read_by<'a>(
    mapping: &'a [u16; PARAGRAPHS],
    permissions: &'a [u8; PARAGRAPHS],
    j: Jlp,
    ram: &[u16],
    at: Console,
) -> Option<u16>
    ensures { result ≡ read_by j (active mapping.now permissions.now) ram.now at }
{
    match source_of(mapping, permissions, j, at) {
        Source::Nobody => None,
        Source::Latched(w) => Some(w),
        Source::Ram(cell) => fetch(cell, ram),
    }
}

pub fn read(c: Cartridge, ram: &[u16], at: Console) -> Option<u16>
    ensures { result ≡ read_of c ram.now at }
{
    read_by(&c.mapping, &c.permissions, c.jlp, ram, at)
}

// The half-page whose register an address is, where it may be switched.
fn bank_of(permissions: &[u8; PARAGRAPHS], at: Console) -> Option<u8>
    ensures { result ≡ banked_only permissions.now (register_at at) }
{
    switches::register_at(at).filter(|&p| switches::banked(permissions, p))
}

// The flip entry that a write asks for, where it acts.
fn flip_of(flips: &[u16; FLIP_ENTRIES], at: Console, value: u16) -> Option<u8>
    ensures { result ≡ acting_only flips.now (asks at value) }
{
    switches::asked(at, value).filter(|&n| switches::acts(flips, n))
}

// Who takes a write that switches nothing: a flip entry, else the word that the address reaches.
fn unbanked_taker<'a>(
    mapping: &'a [u16; PARAGRAPHS],
    permissions: &'a [u8; PARAGRAPHS],
    flips: &'a [u16; FLIP_ENTRIES],
    at: Console,
    value: u16,
) -> Taker
    ensures { result ≡ flip_taker flips.now (asks at value) (Ram (cell_at (active mapping.now permissions.now) at)) }
{
    match flip_of(flips, at, value) {
        Some(n) => Taker::Flip(n),
        None => Taker::Ram(cell_at(mapping, permissions, at)),
    }
}

// By the tables: the first that a write asks, else the word that the address reaches.
fn mapped_taker<'a>(
    mapping: &'a [u16; PARAGRAPHS],
    permissions: &'a [u8; PARAGRAPHS],
    flips: &'a [u16; FLIP_ENTRIES],
    at: Console,
    value: u16,
) -> Taker
    ensures { result ≡ mapped_taker (active mapping.now permissions.now) flips.now at value }
{
    match bank_of(permissions, at) {
        Some(p) => Taker::Bank(p, (value % 256) as u8),
        None => unbanked_taker(mapping, permissions, flips, at, value),
    }
}

// In the accelerators' window: their RAM, or their registers.
fn window_taker(at: Console) -> Taker
    ensures { result ≡ window_taker at }
{
    if jlp::in_ram(at) {
        return Taker::Ram(window_cell(at));
    }
    Taker::Accelerators
}

// Who takes a write: before all others the accelerators.
fn taker_of<'a>(
    mapping: &'a [u16; PARAGRAPHS],
    permissions: &'a [u8; PARAGRAPHS],
    flips: &'a [u16; FLIP_ENTRIES],
    j: Jlp,
    at: Console,
    value: u16,
) -> Taker
    ensures { result ≡ taker_of j (active mapping.now permissions.now) flips.now at value }
{
    if jlp::takes(j, at, value) {
        return window_taker(at);
    }
    mapped_taker(mapping, permissions, flips, at, value)
}

// The word that a store leaves: a narrow one replaces the low 8 bits only.
fn stored_word(narrow: bool, old: u16, value: u16) -> u16
    ensures { result ≡ stored_word narrow old value }
{
    if narrow {
        return old / 256 * 256 + value % 256;
    }
    value
}

// A store to a cell that may be written and lies in the lent RAM.
pub fn store(cell: Cell, ram: &mut [u16], value: u16)
    ensures { ram.new ≡ stored cell ram.old value }
{
    let i = cell.location.0 as usize;
    if cell.rights.write && i < places::lent_words(ram) {
        ram[i] = stored_word(cell.rights.narrow, ram[i], value);
    }
}

// 1 for a permission with READ, else 0.
fn read_bit(permission: u8) -> u16
    ensures { (result ≡ permission % 2) × (result ≤ 1) }
{
    (permission % 2) as u16
}

// How many of n permissions from place a on have READ.
fn readable_in(permissions: &[u8], a: usize, n: usize) -> u16
    requires { (a + n ≤ length permissions.now) × (n ≤ paragraphs) }
    ensures { (result ≡ readable_in permissions.now a n) × (result ≤ n) }
{
    let mut k = 0;
    for i in 0..n {
        k += read_bit(permissions[a + i]);
    }
    k
}

// Of those that flip entry n changes, among all 256.
fn readable_by(permissions: &[u8; PARAGRAPHS], n: u8) -> u16
    ensures { (result ≡ readable_in permissions.now (flip_from n) (flip_size n)) × (length permissions.now ≡ paragraphs) }
{
    readable_in(
        permissions,
        switches::flip_from(n),
        switches::flip_size(n) as usize,
    )
}

// Of those that flip entry n changes, when it has acted: all or none, for each gets the entry's permission.
fn readable_after(flips: &[u16; FLIP_ENTRIES], n: u8) -> u16
    ensures { result ≡ (if READ (slice_index flips.now n) then flip_size n else 0) }
{
    let i = n as usize;
    if flips[i] % 2 == 0 {
        return 0;
    }
    switches::flip_size(n) as u16
}

// Of all.
fn readable_of(permissions: &[u8; PARAGRAPHS]) -> u16
    ensures { result ≡ readable_of permissions.now }
{
    readable_in(permissions, 0, PARAGRAPHS)
}

// The number that is kept, when a part that had so many before has so many after.
fn recount(kept: u16, before: u16, after: u16) -> u16
    ensures { result ≡ recounted kept before after }
{
    std::num::wrapping_sub_u16(std::num::wrapping_add_u16(kept, after), before)
}

// Flip entry n acts on the lent tables, and the number of readable paragraphs follows.
fn flip_counted(
    mapping: &mut [u16; PARAGRAPHS],
    permissions: &mut [u8; PARAGRAPHS],
    flips: &[u16; FLIP_ENTRIES],
    readable: &mut u16,
    n: u8,
) -> u8
    ensures { (result ≡ flip_size n)
        × (readable.new ≡ recounted readable.old (readable_in permissions.old (flip_from n) (flip_size n)) (readable_in (flipped flips.now n (active mapping.old permissions.old)).permissions (flip_from n) (flip_size n)))
        × (mapping.new ≡ (flipped flips.now n (active mapping.old permissions.old)).mapping)
        × (permissions.new ≡ (flipped flips.now n (active mapping.old permissions.old)).permissions) }
{
    let before = readable_by(permissions, n);
    let after = readable_after(flips, n);
    *readable = recount(*readable, before, after);
    switches::flip(mapping, permissions, flips, n)
}

// What a taker leaves of the lent tables and of the number, and answers: apart, so that the way of a store stays short.
fn shift<'a>(
    mapping: &'a mut [u16; PARAGRAPHS],
    permissions: &'a mut [u8; PARAGRAPHS],
    flips: &'a [u16; FLIP_ENTRIES],
    readable: &'a mut u16,
    t: Taker,
) -> u8
    ensures { (result ≡ assigned_by t)
        × (readable.new ≡ readable_by t (active mapping.old permissions.old) flips.now readable.old)
        × (mapping.new ≡ (left_by t (active mapping.old permissions.old) flips.now).mapping)
        × (permissions.new ≡ (left_by t (active mapping.old permissions.old) flips.now).permissions) }
{
    match t {
        Taker::Accelerators => 0,
        Taker::Bank(p, first) => switches::bankswitch(mapping, p, first),
        Taker::Flip(n) => flip_counted(mapping, permissions, flips, readable, n),
        Taker::Ram(_) => 0,
    }
}

// The command that a write to the accelerators' registers asks for, done.
pub fn command(s: Saves, ram: &mut [u16], flash: &mut [u16], at: Console, value: u16)
    ensures { (flash.new ≡ (acted s.sectors (memories flash.old ram.old) (command_of s at value)).flash)
        × (ram.new ≡ (acted s.sectors (memories flash.old ram.old) (command_of s at value)).ram) }
{
    flash::act(s.sectors, flash, ram, flash::asked(s, at, value));
}

// A write by the active tables, the flip table and the number of readable paragraphs, all lent, and the accelerators as they are before it:
// no table of the cartridge is copied.
pub fn write_by<'a>(
    mapping: &'a mut [u16; PARAGRAPHS],
    permissions: &'a mut [u8; PARAGRAPHS],
    flips: &'a [u16; FLIP_ENTRIES],
    readable: &'a mut u16,
    j: Jlp,
    ram: &mut [u16],
    flash: &mut [u16],
    at: Console,
    value: u16,
) -> u8
    ensures { (result ≡ assigned j (active mapping.old permissions.old) flips.now at value)
        × (readable.new ≡ leaves_readable j (active mapping.old permissions.old) flips.now readable.old at value)
        × (mapping.new ≡ (leaves j (active mapping.old permissions.old) flips.now at value).mapping)
        × (permissions.new ≡ (leaves j (active mapping.old permissions.old) flips.now at value).permissions)
        × (ram.new ≡ leaves_ram j (active mapping.old permissions.old) flips.now flash.old ram.old at value)
        × (flash.new ≡ leaves_flash j (active mapping.old permissions.old) flips.now flash.old ram.old at value) }
{
    let t = taker_of(mapping, permissions, flips, j, at, value);
    match t {
        Taker::Ram(cell) => {
            store(cell, ram, value);
            0
        }
        Taker::Accelerators => {
            command(j.saves, ram, flash, at, value);
            0
        }
        Taker::Bank(_, _) => shift(mapping, permissions, flips, readable, t),
        Taker::Flip(_) => shift(mapping, permissions, flips, readable, t),
    }
}

// A cartridge as loaded with these accelerators: the active tables are the initial ones.
pub fn fresh(
    j: Jlp,
    mapping: [u16; PARAGRAPHS],
    permissions: [u8; PARAGRAPHS],
    flips: [u16; FLIP_ENTRIES],
) -> Cartridge
    ensures { result ≡ fresh j mapping permissions flips }
{
    Cartridge {
        initial_mapping: mapping,
        initial_permissions: permissions,
        mapping,
        permissions,
        flips,
        readable: readable_of(&permissions),
        jlp: j,
    }
}

pub fn write(c: Cartridge, ram: &mut [u16], flash: &mut [u16], at: Console, value: u16) -> Written
    ensures { (result ≡ written_of c at value)
        × (ram.new ≡ write_ram_of c flash.old ram.old at value)
        × (flash.new ≡ write_flash_of c flash.old ram.old at value) }
{
    let mut mapping = c.mapping;
    let mut permissions = c.permissions;
    let mut readable = c.readable;
    let assigned = write_by(
        &mut mapping,
        &mut permissions,
        &c.flips,
        &mut readable,
        c.jlp,
        ram,
        flash,
        at,
        value,
    );
    Written {
        cartridge: Cartridge {
            mapping,
            permissions,
            readable,
            jlp: jlp::write(c.jlp, at, value),
            ..c
        },
        assigned,
    }
}

pub fn reset(c: Cartridge) -> Cartridge
    ensures { result ≡ reset_of c }
{
    // The tables go through variables: a count over a field in its place has the compiler lay the whole cartridge out first.
    let mapping = c.initial_mapping;
    let initial = c.initial_permissions;
    Cartridge {
        mapping,
        permissions: initial,
        readable: readable_of(&initial),
        jlp: jlp::reset(c.jlp),
        ..c
    }
}

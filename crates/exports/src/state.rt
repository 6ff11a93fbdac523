// All of a cartridge in one struct, as C keeps it: given by value to an access or a list of them, and answered anew.
ghost use Rattle.std.specs.Prelude.{◌≡◌, length};
ghost use Rattle.places.specs.Places.{console};
ghost use Rattle.cart.specs.Cartridges.{fresh, read_of, written_of, write_ram_of, write_flash_of, reset_of};
ghost use Rattle.accesses.specs.Runs.{world, ran_of, left, answers_in};
ghost use Rattle.registers.specs.Words.{jlp_from};
ghost use Rattle.cart.specs.Reads.{heard};
ghost use Rattle.exports.specs.States.{state_of, cartridge_from, written_as, ran_as};
ghost use Rattle.exports.specs.Code.States.{state_with};

use crate::fresh;
use accesses::Ran;
use cart::Cartridge;
use places::{Console, FLIP_ENTRIES, PARAGRAPHS};
use registers::{ACCELERATOR_WORDS, jlp_from, words_of};

// The tables as loaded, the tables as they act now, the flip table, how many paragraphs can be read now, and the accelerators' words.
#[repr(C)]
#[derive(Clone, Copy)]
pub struct State {
    pub initial_mapping: [u16; PARAGRAPHS],
    pub initial_permissions: [u8; PARAGRAPHS],
    pub mapping: [u16; PARAGRAPHS],
    pub permissions: [u8; PARAGRAPHS],
    pub flips: [u16; FLIP_ENTRIES],
    pub readable: u16,
    pub accelerators: [u16; ACCELERATOR_WORDS],
}

fn state_of(c: Cartridge) -> State
    ensures { result ≡ state_of c }
{
    let initial_mapping = c.initial_mapping;
    let initial_permissions = c.initial_permissions;
    let mapping = c.mapping;
    let permissions = c.permissions;
    let flips = c.flips;
    let accelerators = words_of(c.jlp);
    State {
        initial_mapping,
        initial_permissions,
        mapping,
        permissions,
        flips,
        readable: c.readable,
        accelerators,
    }
}

fn cartridge_from(s: State) -> Cartridge
    ensures { result ≡ cartridge_from s }
{
    let initial_mapping = s.initial_mapping;
    let initial_permissions = s.initial_permissions;
    let mapping = s.mapping;
    let permissions = s.permissions;
    let flips = s.flips;
    let words = s.accelerators;
    Cartridge {
        initial_mapping,
        initial_permissions,
        mapping,
        permissions,
        flips,
        readable: s.readable,
        jlp: jlp_from(&words),
    }
}

// The state of a cartridge as it is loaded with these tables.
#[unsafe(no_mangle)]
pub extern "C" fn luigi_state<'a>(
    mapping: &'a [u16; PARAGRAPHS],
    permissions: &'a [u8; PARAGRAPHS],
    flips: &'a [u16; FLIP_ENTRIES],
    accelerators: &'a [u16; ACCELERATOR_WORDS],
) -> State
    ensures { result ≡ state_of (fresh (jlp_from accelerators.now) mapping.now permissions.now flips.now) }
{
    state_of(fresh(mapping, permissions, flips, accelerators))
}

// The word at an address, or silence.
#[unsafe(no_mangle)]
pub extern "C" fn luigi_read_by_value(state: State, ram: &[u16], at: u16) -> u32
    ensures { result ≡ heard (read_of (cartridge_from state) ram.now (console at)) }
{
    let mapping = state.mapping;
    let permissions = state.permissions;
    let accelerators = state.accelerators;
    direct::read(&mapping, &permissions, &accelerators, ram, Console(at))
}

// The state that a write leaves, and how many mapping entries it has assigned.
#[repr(C)]
#[derive(Clone, Copy)]
pub struct WrittenState {
    pub state: State,
    pub assigned: u8,
}

// The state with other tables that act, another number of readable paragraphs, and other accelerators.
fn with_active(
    state: State,
    mapping: [u16; PARAGRAPHS],
    permissions: [u8; PARAGRAPHS],
    readable: u16,
    accelerators: [u16; ACCELERATOR_WORDS],
) -> State
    ensures { result ≡ state_with state mapping permissions readable accelerators }
{
    State {
        mapping,
        permissions,
        readable,
        accelerators,
        ..state
    }
}

#[unsafe(no_mangle)]
pub extern "C" fn luigi_write_by_value(
    state: State,
    ram: &mut [u16],
    flash: &mut [u16],
    at: u16,
    value: u16,
) -> WrittenState
    ensures { (result ≡ written_as (written_of (cartridge_from state) (console at) value))
        × (ram.new ≡ write_ram_of (cartridge_from state) flash.old ram.old (console at) value)
        × (flash.new ≡ write_flash_of (cartridge_from state) flash.old ram.old (console at) value) }
{
    let mut m = state.mapping;
    let mut p = state.permissions;
    let flips = state.flips;
    let mut readable = state.readable;
    let mut words = state.accelerators;
    let assigned = direct::write(
        &mut m,
        &mut p,
        &flips,
        &mut readable,
        &mut words,
        ram,
        flash,
        Console(at),
        value,
    );
    WrittenState {
        state: with_active(state, m, p, readable, words),
        assigned,
    }
}

#[unsafe(no_mangle)]
pub extern "C" fn luigi_reset_by_value(state: State) -> State
    ensures { result ≡ state_of (reset_of (cartridge_from state)) }
{
    state_of(cart::reset(cartridge_from(state)))
}

// What running a list answers: its refusal, the lines run, how many answers there are, and the state that the run leaves.
#[repr(C)]
#[derive(Clone, Copy)]
pub struct RanList {
    pub number: u32,
    pub place: usize,
    pub lines: usize,
    pub length: usize,
    pub state: State,
}

fn ran_as(ran: Ran) -> RanList
    ensures { result ≡ ran_as ran }
{
    RanList {
        number: ran.refusal.number,
        place: ran.refusal.place,
        lines: ran.lines,
        length: ran.length,
        state: state_of(ran.cartridge),
    }
}

// A list of bus accesses, run on the cartridge of this state up to a limit on lines; the answers go to the front of `out`.
#[unsafe(no_mangle)]
pub extern "C" fn luigi_run(
    list: &[u8],
    limit: usize,
    state: State,
    ram: &mut [u16],
    flash: &mut [u16],
    out: &mut [u32],
) -> RanList
    ensures { (result ≡ ran_as (ran_of (world (cartridge_from state) flash.old ram.old) list.now limit (length out.old)))
        × (ram.new ≡ (left (world (cartridge_from state) flash.old ram.old) list.now limit (length out.old)).ram)
        × (flash.new ≡ (left (world (cartridge_from state) flash.old ram.old) list.now limit (length out.old)).flash)
        × (out.new ≡ answers_in (world (cartridge_from state) flash.old ram.old) list.now limit out.old) }
{
    ran_as(accesses::run(list, limit, cartridge_from(state), ram, flash, out))
}

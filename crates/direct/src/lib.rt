// Reads and writes by the lent tables that act and by lent words of accelerators: what the cartridge's own answer and leave (01, "The machine"; 02, W-202,
// W-206 and W-209). Most need ask nobody but a word of the RAM: for these there are short ways, which say where somebody is to be asked first, and then do
// nothing. They are small, so that a loop over accesses has them in it.
#![tactic(auto)]

ghost use Rattle.std.specs.Prelude.{◌≡◌};
ghost use Rattle.switches.specs.Flips.{active};
ghost use Rattle.flash.specs.Flash.{memories, acted};
ghost use Rattle.flash.specs.Registers.{command_of};
ghost use Rattle.jlp.specs.Accelerators.{written_jlp};
ghost use Rattle.registers.specs.Words.{words_of, jlp_from};
ghost use Rattle.cart.specs.Reads.{heard, read_by};
ghost use Rattle.cart.specs.Writes.{leaves, leaves_ram, leaves_flash, assigned, leaves_readable};
ghost use Rattle.direct.specs.Direct.{window_reach, read_reach, asks_more, write_reach, hears, is_done, keeps};

use places::{Console, FLIP_ENTRIES, PARAGRAPHS};
use registers::ACCELERATOR_WORDS;

// Returns what a read in the accelerators' window gets while they are on: a word of their RAM, or None where a register must be asked.
fn hear_window(ram: &[u16], at: Console) -> Option<u32>
    ensures { result ≡ hears (window_reach at) ram.now }
{
    if !jlp::in_ram(at) {
        return None;
    }
    Some(cart::heard(cart::fetch(cart::window_cell(at), ram)))
}

// Returns what a read gets as one number, or None where a register must be asked.
pub fn hear<'a>(
    mapping: &'a [u16; PARAGRAPHS],
    permissions: &'a [u8; PARAGRAPHS],
    on: bool,
    ram: &[u16],
    at: Console,
) -> Option<u32>
    ensures { result ≡ hears (read_reach on (active mapping.now permissions.now) at) ram.now }
{
    if on && jlp::in_window(at) {
        return hear_window(ram, at);
    }
    if cart::is_silent(at) {
        return Some(cart::SILENCE);
    }
    Some(cart::heard(cart::fetch(cart::cell_at(mapping, permissions, at), ram)))
}

// Whether a write there can be more than a store: a bankswitch register, the address of a chapter's page requests, and the one that turns the
// accelerators on.
fn asks_more(at: Console) -> bool
    ensures { result ≡ asks_more at }
{
    let a = at.0;
    a / 0x20 == 2 || a % 0x1000 == 0xFFF || a == jlp::ON_AT
}

// A write in the accelerators' window, while they are on, and whether it was a store to their RAM.
fn store_window(ram: &mut [u16], at: Console, value: u16) -> bool
    ensures { (result ≡ is_done (window_reach at)) × (ram.new ≡ keeps (window_reach at) ram.old value) }
{
    if jlp::in_ram(at) {
        cart::store(cart::window_cell(at), ram, value);
        return true;
    }
    false
}

// A write that is a store and no more, and whether it was one.
pub fn store<'a>(
    mapping: &'a [u16; PARAGRAPHS],
    permissions: &'a [u8; PARAGRAPHS],
    on: bool,
    ram: &mut [u16],
    at: Console,
    value: u16,
) -> bool
    ensures { (result ≡ is_done (write_reach on (active mapping.now permissions.now) at))
        × (ram.new ≡ keeps (write_reach on (active mapping.now permissions.now) at) ram.old value) }
{
    if on && jlp::in_window(at) {
        return store_window(ram, at, value);
    }
    if asks_more(at) {
        return false;
    }
    cart::store(cart::cell_at(mapping, permissions, at), ram, value);
    true
}

// What a read gets as one number, whoever answers it.
pub fn read<'a>(
    mapping: &'a [u16; PARAGRAPHS],
    permissions: &'a [u8; PARAGRAPHS],
    accelerators: &'a [u16; ACCELERATOR_WORDS],
    ram: &[u16],
    at: Console,
) -> u32
    ensures { result ≡ heard (read_by (jlp_from accelerators.now) (active mapping.now permissions.now) ram.now at) }
{
    let j = registers::jlp_from(accelerators);
    cart::heard(cart::read_by(mapping, permissions, j, ram, at))
}

// A write to a register of the accelerators: the command that it asks for, done, and what it leaves of them.
fn latch(
    accelerators: &mut [u16; ACCELERATOR_WORDS],
    ram: &mut [u16],
    flash: &mut [u16],
    at: Console,
    value: u16,
)
    ensures { (accelerators.new ≡ words_of (written_jlp (jlp_from accelerators.old) at value))
        × (ram.new ≡ (acted (jlp_from accelerators.old).saves.sectors (memories flash.old ram.old) (command_of (jlp_from accelerators.old).saves at value)).ram)
        × (flash.new ≡ (acted (jlp_from accelerators.old).saves.sectors (memories flash.old ram.old) (command_of (jlp_from accelerators.old).saves at value)).flash) }
{
    let saves = registers::saves_of(accelerators);
    cart::command(saves, ram, flash, at, value);
    registers::write(accelerators, at, value);
}

// Any other write, by all that the cartridge asks: it leaves the accelerators as they are.
fn switch<'a>(
    mapping: &'a mut [u16; PARAGRAPHS],
    permissions: &'a mut [u8; PARAGRAPHS],
    flips: &'a [u16; FLIP_ENTRIES],
    readable: &'a mut u16,
    accelerators: &'a mut [u16; ACCELERATOR_WORDS],
    ram: &mut [u16],
    flash: &mut [u16],
    at: Console,
    value: u16,
) -> u8
    ensures { (result ≡ assigned (jlp_from accelerators.old) (active mapping.old permissions.old) flips.now at value)
        × (readable.new ≡ leaves_readable (jlp_from accelerators.old) (active mapping.old permissions.old) flips.now readable.old at value)
        × (mapping.new ≡ (leaves (jlp_from accelerators.old) (active mapping.old permissions.old) flips.now at value).mapping)
        × (permissions.new ≡ (leaves (jlp_from accelerators.old) (active mapping.old permissions.old) flips.now at value).permissions)
        × (accelerators.new ≡ words_of (jlp_from accelerators.old))
        × (ram.new ≡ leaves_ram (jlp_from accelerators.old) (active mapping.old permissions.old) flips.now flash.old ram.old at value)
        × (flash.new ≡ leaves_flash (jlp_from accelerators.old) (active mapping.old permissions.old) flips.now flash.old ram.old at value) }
{
    let j = registers::jlp_from(accelerators);
    registers::tidy(accelerators);
    cart::write_by(
        mapping,
        permissions,
        flips,
        readable,
        j,
        ram,
        flash,
        at,
        value,
    )
}

// A write, whoever takes it; it answers how many mapping entries it has assigned.
pub fn write<'a>(
    mapping: &'a mut [u16; PARAGRAPHS],
    permissions: &'a mut [u8; PARAGRAPHS],
    flips: &'a [u16; FLIP_ENTRIES],
    readable: &'a mut u16,
    accelerators: &'a mut [u16; ACCELERATOR_WORDS],
    ram: &mut [u16],
    flash: &mut [u16],
    at: Console,
    value: u16,
) -> u8
    ensures { (result ≡ assigned (jlp_from accelerators.old) (active mapping.old permissions.old) flips.now at value)
        × (readable.new ≡ leaves_readable (jlp_from accelerators.old) (active mapping.old permissions.old) flips.now readable.old at value)
        × (mapping.new ≡ (leaves (jlp_from accelerators.old) (active mapping.old permissions.old) flips.now at value).mapping)
        × (permissions.new ≡ (leaves (jlp_from accelerators.old) (active mapping.old permissions.old) flips.now at value).permissions)
        × (accelerators.new ≡ words_of (written_jlp (jlp_from accelerators.old) at value))
        × (ram.new ≡ leaves_ram (jlp_from accelerators.old) (active mapping.old permissions.old) flips.now flash.old ram.old at value)
        × (flash.new ≡ leaves_flash (jlp_from accelerators.old) (active mapping.old permissions.old) flips.now flash.old ram.old at value) }
{
    if registers::operates(accelerators, at, value) {
        return 0;
    }
    if registers::latches(accelerators, at, value) {
        latch(accelerators, ram, flash, at, value);
        return 0;
    }
    switch(
        mapping,
        permissions,
        flips,
        readable,
        accelerators,
        ram,
        flash,
        at,
        value,
    )
}

// One bus access at a time, by tables and accelerators that C lends: a read and a write copy no table.
ghost use Rattle.std.specs.Prelude.{◌≡◌};
ghost use Rattle.places.specs.Places.{console};
ghost use Rattle.switches.specs.Flips.{active};
ghost use Rattle.jlp.specs.Accelerators.{reset_jlp};
ghost use Rattle.cart.specs.Readable.{readable_of};
ghost use Rattle.cart.specs.Reads.{heard, read_by};
ghost use Rattle.cart.specs.Cartridges.{write_of, written_of, write_ram_of, write_flash_of};
ghost use Rattle.registers.specs.Words.{jlp_from, words_of};
ghost use Rattle.exports.specs.Runs.{carried};

use places::{Console, FLIP_ENTRIES, PARAGRAPHS};
use registers::{ACCELERATOR_WORDS, jlp_from, words_of};

// The word at an address, or silence.
#[unsafe(no_mangle)]
pub extern "C" fn luigi_read<'a>(
    mapping: &'a [u16; PARAGRAPHS],
    permissions: &'a [u8; PARAGRAPHS],
    accelerators: &'a [u16; ACCELERATOR_WORDS],
    ram: &[u16],
    at: u16,
) -> u32
    ensures { result ≡ heard (read_by (jlp_from accelerators.now) (active mapping.now permissions.now) ram.now (console at)) }
{
    let a = Console(at);
    let on = registers::is_on(accelerators);
    match direct::hear(mapping, permissions, on, ram, a) {
        Some(n) => n,
        None => direct::read(mapping, permissions, accelerators, ram, a),
    }
}

// A write; it answers how many mapping entries it has assigned.
#[unsafe(no_mangle)]
pub extern "C" fn luigi_write(
    mapping: &mut [u16; PARAGRAPHS],
    permissions: &mut [u8; PARAGRAPHS],
    flips: &[u16; FLIP_ENTRIES],
    readable: &mut u16,
    accelerators: &mut [u16; ACCELERATOR_WORDS],
    ram: &mut [u16],
    flash: &mut [u16],
    at: u16,
    value: u16,
) -> u8
    ensures { (result ≡ (written_of (carried mapping.old permissions.old flips.now readable.old (jlp_from accelerators.old)) (console at) value).assigned)
        × (readable.new ≡ (write_of (carried mapping.old permissions.old flips.now readable.old (jlp_from accelerators.old)) (console at) value).readable)
        × (mapping.new ≡ (write_of (carried mapping.old permissions.old flips.now readable.old (jlp_from accelerators.old)) (console at) value).mapping)
        × (permissions.new ≡ (write_of (carried mapping.old permissions.old flips.now readable.old (jlp_from accelerators.old)) (console at) value).permissions)
        × (accelerators.new ≡ words_of (write_of (carried mapping.old permissions.old flips.now readable.old (jlp_from accelerators.old)) (console at) value).jlp)
        × (ram.new ≡ write_ram_of (carried mapping.old permissions.old flips.now readable.old (jlp_from accelerators.old)) flash.old ram.old (console at) value)
        × (flash.new ≡ write_flash_of (carried mapping.old permissions.old flips.now readable.old (jlp_from accelerators.old)) flash.old ram.old (console at) value) }
{
    registers::tidy(accelerators);
    let a = Console(at);
    let on = registers::is_on(accelerators);
    if direct::store(mapping, permissions, on, ram, a, value) {
        return 0;
    }
    direct::write(
        mapping,
        permissions,
        flips,
        readable,
        accelerators,
        ram,
        flash,
        a,
        value,
    )
}

// A reset to initial tables that are lent. It asks no flip entry, and leaves RAM and flash.
#[unsafe(no_mangle)]
pub extern "C" fn luigi_reset<'a>(
    initial_mapping: &'a [u16; PARAGRAPHS],
    initial_permissions: &'a [u8; PARAGRAPHS],
    mapping: &mut [u16; PARAGRAPHS],
    permissions: &mut [u8; PARAGRAPHS],
    readable: &mut u16,
    accelerators: &mut [u16; ACCELERATOR_WORDS],
)
    ensures { (mapping.new ≡ initial_mapping.now)
        × (permissions.new ≡ initial_permissions.now)
        × (readable.new ≡ readable_of initial_permissions.now)
        × (accelerators.new ≡ words_of (reset_jlp (jlp_from accelerators.old))) }
{
    let c = cart::reset(cart::fresh(
        jlp_from(accelerators),
        *initial_mapping,
        *initial_permissions,
        [0; FLIP_ENTRIES],
    ));
    let m = c.mapping;
    let p = c.permissions;
    *mapping = m;
    *permissions = p;
    *readable = c.readable;
    *accelerators = words_of(c.jlp);
}

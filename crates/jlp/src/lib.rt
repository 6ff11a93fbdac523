// The JLP accelerators by value: which writes they take, what a write leaves of them, and what their registers answer (02, W-206; 000,
// "JLP Multiply and Divide Accelerators", "JLP CRC-16 Accelerator"); the flash's registers are among theirs (02, W-209). Numbers to numbers:
// no word of the cartridge, of its RAM or of its flash.
#![tactic(auto)]

mod arith;
mod sum;

ghost use Rattle.std.specs.Prelude.{◌<◌, ◌≡◌};
ghost use Rattle.jlp.specs.Window.{between, in_window, in_ram, is_operand, ram_location};
ghost use Rattle.jlp.specs.Accelerators.{operand_count, starts_on, fresh_jlp, with_on, reset_jlp, turns_on, turns_off, takes, latches, function_of, operated, crc_after, with_crc_and_saves, written_on, written_jlp, register_word, heard_at};

pub use arith::{divide, multiply};
use flash::{RAM_END, RAM_SHIFT, RAM_START, Saves};
use places::{Console, Locutus};
pub use sum::checksum;

// The window of console addresses that is the accelerators' while they are on.
pub const WINDOW_START: u16 = 0x8000;

pub const WINDOW_END: u16 = 0x9FFF;

// As many lent words hold all of the RAM in it.
pub const RAM_WORDS: usize = 73600;

// The words that turn the accelerators on and off, and where they are written.
pub const ON_AT: u16 = 0x8033;

pub const ON_WORD: u16 = 0x4A5A;

pub const OFF_AT: u16 = 0x8034;

pub const OFF_WORD: u16 = 0x6A7A;

// The operands, two for each function, and the two result words.
pub const OPERANDS_START: u16 = 0x9F80;

pub const OPERANDS_END: u16 = 0x9F8B;

pub const OPERAND_COUNT: usize = 12;

pub const FIRST_AT: u16 = 0x9F8E;

pub const SECOND_AT: u16 = 0x9F8F;

// Where a word is added to the CRC, and where the CRC is set and read.
pub const DATA_AT: u16 = 0x9FFC;

pub const CRC_AT: u16 = 0x9FFD;

// The two result words: a product's low and high word, or quotient and remainder.
#[derive(Clone, Copy)]
pub struct Results {
    pub first: u16,
    pub second: u16,
}

// The header's JLP field; whether the accelerators are on; the operands as last written; the results; the CRC; the flash's registers.
#[derive(Clone, Copy)]
pub struct Jlp {
    pub field: u8,
    pub on: bool,
    pub operands: [u16; OPERAND_COUNT],
    pub results: Results,
    pub crc: u16,
    pub saves: Saves,
}

// An address from low to high.
fn between(low: u16, high: u16, a: u16) -> bool
    ensures { result ≡ between low high a }
{
    (low..=high).contains(&a)
}

pub fn in_window(at: Console) -> bool
    ensures { result ≡ in_window at }
{
    between(WINDOW_START, WINDOW_END, at.0)
}

pub fn in_ram(at: Console) -> bool
    ensures { result ≡ in_ram at }
{
    between(RAM_START, RAM_END, at.0)
}

// Whether an address is an operand's.
pub fn is_operand(at: Console) -> bool
    ensures { result ≡ is_operand at }
{
    between(OPERANDS_START, OPERANDS_END, at.0)
}

// Where a word of the window's RAM lies.
pub fn location(at: Console) -> Locutus
    ensures { result ≡ ram_location at }
{
    Locutus(at.0 as u32 + RAM_SHIFT)
}

// Whether the field has the accelerators on at load and reset.
fn starts_on(field: u8) -> bool
    ensures { result ≡ starts_on field }
{
    field == 1 || field == 3
}

// The accelerators at load, with a flash of so many sectors.
pub fn fresh(field: u8, sectors: u16) -> Jlp
    ensures { result ≡ fresh_jlp field sectors }
{
    Jlp {
        field,
        on: starts_on(field),
        operands: [0; OPERAND_COUNT],
        results: Results {
            first: 0,
            second: 0,
        },
        crc: 0,
        saves: flash::fresh(sectors),
    }
}

// On or off; all else stays.
fn with_on(mut j: Jlp, on: bool) -> Jlp
    ensures { result ≡ with_on j on }
{
    j.on = on;
    j
}

pub fn reset(j: Jlp) -> Jlp
    ensures { result ≡ reset_jlp j }
{
    with_on(j, starts_on(j.field))
}

// The word that turns the accelerators on, which field 0 does not know.
pub fn turns_on(field: u8, at: Console, value: u16) -> bool
    ensures { result ≡ turns_on field at value }
{
    at.0 == ON_AT && value == ON_WORD && field != 0
}

// The word that turns them off.
pub fn turns_off(at: Console, value: u16) -> bool
    ensures { result ≡ turns_off at value }
{
    at.0 == OFF_AT && value == OFF_WORD
}

// Whether the accelerators take a write. The address decides most.
pub fn takes(j: Jlp, at: Console, value: u16) -> bool
    ensures { result ≡ takes j at value }
{
    in_window(at) && (j.on || turns_on(j.field, at, value))
}

// Whether a write goes to one of their registers: no other changes anything of them.
pub fn latches(j: Jlp, at: Console, value: u16) -> bool
    ensures { result ≡ latches j at value }
{
    !in_ram(at) && takes(j, at, value)
}

// The functions as 000's table has them: products, S before U in each factor, then quotients, DIVSS before DIVUU. The number tells which factors are signed,
// so that no product waits for a row of the table that cannot be foreseen.
pub fn function_of(n: usize, a: u16, b: u16, old: Results) -> Results
    ensures { result ≡ function_of n a b old }
{
    if n < 4 {
        return multiply(n < 2, n % 2 == 0, a, b);
    }
    divide(n == 4, a, b, old)
}

// Operand k is written, and its own function computes.
fn operate(mut j: Jlp, k: usize, value: u16) -> Jlp
    requires { k < operand_count }
    ensures { result ≡ operated j k value }
{
    let n = k / 2;
    j.operands[k] = value;
    j.results = function_of(n, j.operands[2 * n], j.operands[2 * n + 1], j.results);
    j
}

// The CRC after a write.
pub fn crc_after(crc: u16, at: Console, value: u16) -> u16
    ensures { result ≡ crc_after crc at value }
{
    if at.0 == DATA_AT {
        return checksum(crc, value);
    }
    if at.0 == CRC_AT {
        return value;
    }
    crc
}

fn with_crc_and_saves(mut j: Jlp, crc: u16, saves: Saves) -> Jlp
    ensures { result ≡ with_crc_and_saves j crc saves }
{
    j.crc = crc;
    j.saves = saves;
    j
}

// What a write leaves of the accelerators while they are on.
fn write_on(j: Jlp, at: Console, value: u16) -> Jlp
    ensures { result ≡ written_on j at value }
{
    if turns_off(at, value) {
        return with_on(j, false);
    }
    if is_operand(at) {
        return operate(j, (at.0 - OPERANDS_START) as usize, value);
    }
    with_crc_and_saves(
        j,
        crc_after(j.crc, at, value),
        flash::remember(j.saves, at, value),
    )
}

// What a write leaves of the accelerators.
pub fn write(j: Jlp, at: Console, value: u16) -> Jlp
    ensures { result ≡ written_jlp j at value }
{
    if turns_on(j.field, at, value) {
        return with_on(j, true);
    }
    if !j.on {
        return j;
    }
    write_on(j, at, value)
}

// The registers that answer.
fn register_at(j: Jlp, at: Console) -> Option<u16>
    ensures { result ≡ register_word j at }
{
    if at.0 == FIRST_AT {
        return Some(j.results.first);
    }
    if at.0 == SECOND_AT {
        return Some(j.results.second);
    }
    if at.0 == CRC_AT {
        return Some(j.crc);
    }
    flash::hear(j.saves, at)
}

// What a read of them gets.
pub fn read(j: Jlp, at: Console) -> Option<u16>
    ensures { result ≡ heard_at j at }
{
    if j.on { register_at(j, at) } else { None }
}

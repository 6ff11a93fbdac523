// The JLP accelerators in twenty lent words, as C keeps them: made of such words, laid out again, asked, and written in place, so that a write copies none of
// the others (02, W-206 and W-209).
#![tactic(auto)]

ghost use Rattle.std.specs.Prelude.{◌<◌, ◌≡◌, length};
ghost use Rattle.jlp.specs.Accelerators.{operand_count, takes, latches, operated, with_crc_and_saves, crc_after, written_on, written_jlp};
ghost use Rattle.flash.specs.Registers.{remembered};
ghost use Rattle.registers.specs.Words.{accelerator_words, words_of, jlp_from, operates, behind_operand};
ghost use Rattle.registers.specs.Code.Tidy.{Tidy};

use flash::Saves;
use jlp::{Jlp, Results};
use places::Console;
use std::array;

// As many words hold the accelerators: the JLP field, 1 for on, the operands, the two results, the CRC; the flash's sectors, address and row.
pub const ACCELERATOR_WORDS: usize = 20;

// The accelerators, laid out. The words are listed, since a table that is filled in steps is no plainer.
pub fn words_of(j: Jlp) -> [u16; ACCELERATOR_WORDS]
    ensures { result ≡ words_of j }
{
    let o = j.operands;
    [
        u16::from(j.field),
        u16::from(j.on),
        o[0],
        o[1],
        o[2],
        o[3],
        o[4],
        o[5],
        o[6],
        o[7],
        o[8],
        o[9],
        o[10],
        o[11],
        j.results.first,
        j.results.second,
        j.crc,
        j.saves.sectors,
        j.saves.addr,
        j.saves.row,
    ]
}

// Any words are some accelerators, on for every word but 0.
pub fn jlp_from(w: &[u16; ACCELERATOR_WORDS]) -> Jlp
    ensures { result ≡ jlp_from w.now }
{
    Jlp {
        field: field_of(w),
        on: is_on(w),
        operands: array::from_fn(|i| w[2 + i]),
        results: results_of(w),
        crc: w[16],
        saves: saves_of(w),
    }
}

fn field_of(w: &[u16; ACCELERATOR_WORDS]) -> u8
    ensures { result ≡ (jlp_from w.now).field }
{
    (w[0] % 256) as u8
}

pub fn is_on(w: &[u16; ACCELERATOR_WORDS]) -> bool
    ensures { result ≡ (jlp_from w.now).on }
{
    w[1] != 0
}

fn results_of(w: &[u16; ACCELERATOR_WORDS]) -> Results
    ensures { result ≡ (jlp_from w.now).results }
{
    Results {
        first: w[14],
        second: w[15],
    }
}

// The registers of the flash among them.
pub fn saves_of(w: &[u16; ACCELERATOR_WORDS]) -> Saves
    ensures { result ≡ (jlp_from w.now).saves }
{
    Saves {
        sectors: w[17],
        addr: w[18],
        row: w[19],
    }
}

// Whether they take a write. The address decides most.
fn takes(w: &[u16; ACCELERATOR_WORDS], at: Console, value: u16) -> bool
    ensures { result ≡ takes (jlp_from w.now) at value }
{
    jlp::in_window(at) && (is_on(w) || jlp::turns_on(field_of(w), at, value))
}

// Whether a write goes to one of their registers.
pub fn latches(w: &[u16; ACCELERATOR_WORDS], at: Console, value: u16) -> bool
    ensures { result ≡ latches (jlp_from w.now) at value }
{
    !jlp::in_ram(at) && takes(w, at, value)
}

// Any words, as the accelerators that they are lay them out: the field a byte, on 0 or 1.
pub fn tidy(w: &mut [u16; ACCELERATOR_WORDS])
    ensures { w.new ≡ words_of (jlp_from w.old) }
{
    w[0] %= 256;
    w[1] = u16::from(w[1] != 0);
}

// Operand k is written, and its own function computes.
fn operate(w: &mut [u16; ACCELERATOR_WORDS], k: usize, value: u16)
    requires { (k < operand_count) × Tidy w.old }
    ensures { w.new ≡ words_of (operated (jlp_from w.old) k value) }
{
    let n = k / 2;
    w[2 + k] = value;
    let r = jlp::function_of(n, w[2 + 2 * n], w[2 + (2 * n + 1)], results_of(w));
    w[14] = r.first;
    w[15] = r.second;
}

// The write of an operand while they are on, and whether it was one.
pub fn operates(w: &mut [u16; ACCELERATOR_WORDS], at: Console, value: u16) -> bool
    ensures { (result ≡ operates (jlp_from w.old) at) × (w.new ≡ behind_operand w.old at value) }
{
    if is_on(w) && jlp::is_operand(at) {
        tidy(w);
        operate(w, (at.0 - jlp::OPERANDS_START) as usize, value);
        return true;
    }
    false
}

// The CRC and the registers of the flash behind a write.
fn remember(w: &mut [u16; ACCELERATOR_WORDS], at: Console, value: u16)
    requires { Tidy w.old }
    ensures { w.new ≡ words_of (with_crc_and_saves (jlp_from w.old) (crc_after (jlp_from w.old).crc at value) (remembered (jlp_from w.old).saves at value)) }
{
    let s = flash::remember(saves_of(w), at, value);
    w[16] = jlp::crc_after(w[16], at, value);
    w[17] = s.sectors;
    w[18] = s.addr;
    w[19] = s.row;
}

// What a write leaves of them while they are on.
fn write_on(w: &mut [u16; ACCELERATOR_WORDS], at: Console, value: u16)
    requires { Tidy w.old }
    ensures { w.new ≡ words_of (written_on (jlp_from w.old) at value) }
{
    if jlp::turns_off(at, value) {
        w[1] = 0;
        return;
    }
    if jlp::is_operand(at) {
        operate(w, (at.0 - jlp::OPERANDS_START) as usize, value);
        return;
    }
    remember(w, at, value);
}

// What a write leaves of them.
pub fn write(w: &mut [u16; ACCELERATOR_WORDS], at: Console, value: u16)
    ensures { w.new ≡ words_of (written_jlp (jlp_from w.old) at value) }
{
    tidy(w);
    if jlp::turns_on(field_of(w), at, value) {
        w[1] = 1;
        return;
    }
    if is_on(w) {
        write_on(w, at, value);
    }
}

// A list of bus accesses as text, and the runner: one pass that checks every line, then one that makes the accesses up to the limit (02, W-214).
#![tactic(auto)]

ghost use Rattle.std.specs.Prelude.{IfSome, ◌+◌, ◌≤◌, ◌<◌, ◌≡◌, length, take};
ghost use Rattle.basics.specs.Lists.{part};
ghost use Rattle.switches.specs.Flips.{active};
ghost use Rattle.jlp.specs.Accelerators.{written_jlp};
ghost use Rattle.cart.specs.Readable.{readable_of};
ghost use Rattle.cart.specs.Cartridges.{with_active};
ghost use Rattle.cart.specs.Run.{after};
ghost use Rattle.text.specs.Lines.{line_end};
ghost use Rattle.accesses.specs.Line.{line_says};
ghost use Rattle.accesses.specs.Accesses.{accesses_of};
ghost use Rattle.accesses.specs.Runs.{world, left, ran_of, answers_in};
ghost use Rattle.accesses.specs.Code.Steps.{digit_said, says, is_heard, checked_of, tabled, stepped, made, number_of, count_of, noted, Fits, Runnable, refused_with, ran_to, answers_to};

use basics::Refusal;
use cart::Cartridge;
use jlp::Jlp;
use places::{Console, FLIP_ENTRIES, PARAGRAPHS};

// The lengths of the three lines, and the places of the address's digits, of ` value=` and of the value's digits.
const RESET_LENGTH: usize = 4;

const READ_LENGTH: usize = 14;

const WRITE_LENGTH: usize = 25;

const ADDRESS_AT: usize = 10;

const ADDRESS_END: usize = 14;

const VALUE_AT: usize = 21;

// What running a list answers: a refusal, with the state as it was given; or none, the state, the lines run, and how many answers there are. At 29
// `length` is how many answers there would be.
#[derive(Clone, Copy)]
pub struct Ran {
    pub refusal: Refusal,
    pub cartridge: Cartridge,
    pub lines: usize,
    pub length: usize,
}

// What a line says, if it is not malformed.
#[derive(Clone, Copy)]
enum Access {
    Read(Console),
    Write(Console, u16),
    Reset,
}

// What an access leaves of the accelerators, and what it answers, if it does.
#[derive(Clone, Copy)]
struct Made {
    jlp: Jlp,
    reply: Option<u32>,
}

fn digit_at(line: &[u8], at: usize) -> Option<u16>
    ensures { (result ≡ digit_said line.now at) × IfSome result (λ d. d < 16) }
{
    let d = text::digit_of(basics::byte_at(line, at));
    if d == 16 {
        return None;
    }
    Some(d as u16)
}

// The four hex digits from `at` on.
fn word_at(line: &[u8], at: usize) -> Option<u16>
    requires { at + 3 < length line.now }
    ensures { result ≡ number_of line.now at }
{
    let a = digit_at(line, at)?;
    let b = digit_at(line, at + 1)?;
    let c = digit_at(line, at + 2)?;
    let d = digit_at(line, at + 3)?;
    Some(((a * 16 + b) * 16 + c) * 16 + d)
}

// `op=x`
fn reset_line(line: &[u8]) -> Option<Access>
    requires { length line.now ≡ 4 }
    ensures { result ≡ says (line_says line.now) }
{
    if text::same_text(line, b"op=x") {
        return Some(Access::Reset);
    }
    None
}

// `op=r addr=HHHH`
fn read_line(line: &[u8]) -> Option<Access>
    requires { length line.now ≡ 14 }
    ensures { result ≡ says (line_says line.now) }
{
    if !text::same_text(&line[..ADDRESS_AT], b"op=r addr=") {
        return None;
    }
    let at = word_at(line, ADDRESS_AT)?;
    Some(Access::Read(Console(at)))
}

// `op=w addr=HHHH value=HHHH`
fn write_line(line: &[u8]) -> Option<Access>
    requires { length line.now ≡ 25 }
    ensures { result ≡ says (line_says line.now) }
{
    if !text::same_text(&line[..ADDRESS_AT], b"op=w addr=") {
        return None;
    }
    if !text::same_text(&line[ADDRESS_END..VALUE_AT], b" value=") {
        return None;
    }
    let at = word_at(line, ADDRESS_AT)?;
    let value = word_at(line, VALUE_AT)?;
    Some(Access::Write(Console(at), value))
}

// What a line says: its length tells which of the three forms it may have.
fn line_says(line: &[u8]) -> Option<Access>
    ensures { result ≡ says (line_says line.now) }
{
    match line.len() {
        READ_LENGTH => read_line(line),
        WRITE_LENGTH => write_line(line),
        RESET_LENGTH => reset_line(line),
        _ => None,
    }
}

// What the line that stands at `at` and ends at `end` says.
fn says_at(list: &[u8], at: usize, end: usize) -> Option<Access>
    requires { (at ≤ length list.now) × (end ≡ line_end list.now at) }
    ensures { result ≡ says (line_says (part list.now at (line_end list.now at))) }
{
    line_says(&list[at..end])
}

// A read alone is answered.
fn is_heard(access: Access) -> bool
    ensures { result ≡ is_heard access }
{
    matches!(access, Access::Read(_))
}

// The checking pass: how many lines and reads there are, or 33 at the number of the first malformed line.
fn check_lines(list: &[u8]) -> Result<(usize, usize), Refusal>
    ensures { result ≡ checked_of list.now }
{
    let mut at = 0;
    let mut lines = 0;
    let mut reads = 0;
    while at < list.len() {
        let end = text::line_end(list, at);
        let Some(access) = says_at(list, at, end) else {
            return Err(basics::refuse(33, lines + 1));
        };
        reads += usize::from(is_heard(access));
        lines += 1;
        at = text::past_end(list, end);
    }
    Ok((lines, reads))
}

// What a write leaves of the accelerators; most go to no register of theirs.
fn latched(j: Jlp, at: Console, value: u16) -> Jlp
    ensures { result ≡ written_jlp j at value }
{
    if jlp::latches(j, at, value) {
        return jlp::write(j, at, value);
    }
    j
}

// One line's access, made over lent tables; `start` is how many paragraphs the initial permissions make readable. No table is copied but at a reset.
fn make<'a>(
    initial_mapping: &'a [u16; PARAGRAPHS],
    initial_permissions: &'a [u8; PARAGRAPHS],
    start: u16,
    mapping: &'a mut [u16; PARAGRAPHS],
    permissions: &'a mut [u8; PARAGRAPHS],
    flips: &'a [u16; FLIP_ENTRIES],
    readable: &'a mut u16,
    j: Jlp,
    ram: &mut [u16],
    flash: &mut [u16],
    access: Access,
) -> Made
    requires { start ≡ readable_of initial_permissions.now }
    ensures { (result ≡ made (tabled (active initial_mapping.now initial_permissions.now) (active mapping.old permissions.old) flips.now readable.old j flash.old ram.old) access)
        × (mapping.new ≡ (stepped (tabled (active initial_mapping.now initial_permissions.now) (active mapping.old permissions.old) flips.now readable.old j flash.old ram.old) access).cartridge.mapping)
        × (permissions.new ≡ (stepped (tabled (active initial_mapping.now initial_permissions.now) (active mapping.old permissions.old) flips.now readable.old j flash.old ram.old) access).cartridge.permissions)
        × (readable.new ≡ (stepped (tabled (active initial_mapping.now initial_permissions.now) (active mapping.old permissions.old) flips.now readable.old j flash.old ram.old) access).cartridge.readable)
        × (flash.new ≡ (stepped (tabled (active initial_mapping.now initial_permissions.now) (active mapping.old permissions.old) flips.now readable.old j flash.old ram.old) access).flash)
        × (ram.new ≡ (stepped (tabled (active initial_mapping.now initial_permissions.now) (active mapping.old permissions.old) flips.now readable.old j flash.old ram.old) access).ram) }
{
    match access {
        Access::Read(at) => Made {
            jlp: j,
            reply: Some(cart::heard(cart::read_by(mapping, permissions, j, ram, at))),
        },
        Access::Write(at, value) => {
            cart::write_by(
                mapping,
                permissions,
                flips,
                readable,
                j,
                ram,
                flash,
                at,
                value,
            );
            Made {
                jlp: latched(j, at, value),
                reply: None,
            }
        }
        Access::Reset => {
            *mapping = *initial_mapping;
            *permissions = *initial_permissions;
            *readable = start;
            Made {
                jlp: jlp::reset(j),
                reply: None,
            }
        }
    }
}

// An answer goes to place k of the buffer; the next place.
fn note(out: &mut [u32], k: usize, reply: Option<u32>) -> usize
    requires { Fits reply k (length out.old) }
    ensures { (result ≡ k + count_of reply) × (out.new ≡ noted reply k out.old) }
{
    match reply {
        None => k,
        Some(n) => {
            out[k] = n;
            k + 1
        }
    }
}

// The cartridge with other active tables.
fn with_active(
    c: Cartridge,
    mapping: [u16; PARAGRAPHS],
    permissions: [u8; PARAGRAPHS],
    readable: u16,
    j: Jlp,
) -> Cartridge
    ensures { result ≡ with_active c (active mapping permissions) readable j }
{
    Cartridge {
        mapping,
        permissions,
        readable,
        jlp: j,
        ..c
    }
}

// The running pass over the first n lines. The cartridge is taken apart before it and made again behind it.
fn run_lines(
    list: &[u8],
    n: usize,
    c: Cartridge,
    ram: &mut [u16],
    flash: &mut [u16],
    out: &mut [u32],
) -> Ran
    requires { Runnable list.now n (length out.old) }
    ensures { (result ≡ ran_to (world c flash.old ram.old) (take n (accesses_of list.now)))
        × (ram.new ≡ (after (world c flash.old ram.old) (take n (accesses_of list.now))).ram)
        × (flash.new ≡ (after (world c flash.old ram.old) (take n (accesses_of list.now))).flash)
        × (out.new ≡ answers_to (world c flash.old ram.old) (take n (accesses_of list.now)) out.old) }
{
    let start = cart::reset(c).readable;
    let mut mapping = c.mapping;
    let mut permissions = c.permissions;
    let mut readable = c.readable;
    let mut j = c.jlp;
    let mut at = 0;
    let mut k = 0;
    for _line in 0..n {
        let end = text::line_end(list, at);
        // no line is malformed: the checking pass has gone over all of them
        let access = says_at(list, at, end).unwrap();
        at = text::past_end(list, end);
        let made = make(
            &c.initial_mapping,
            &c.initial_permissions,
            start,
            &mut mapping,
            &mut permissions,
            &c.flips,
            &mut readable,
            j,
            ram,
            flash,
            access,
        );
        j = made.jlp;
        k = note(out, k, made.reply);
    }
    Ran {
        refusal: basics::no_refusal(),
        cartridge: with_active(c, mapping, permissions, readable, j),
        lines: n,
        length: k,
    }
}

// A refused run: nothing is run, and the state comes back.
fn refused(c: Cartridge, refusal: Refusal, length: usize) -> Ran
    ensures { result ≡ refused_with c refusal length }
{
    Ran {
        refusal,
        cartridge: c,
        lines: 0,
        length,
    }
}

// Runs a list of accesses up to a limit on lines, over lent RAM and flash; the words read go to the front of `out`.
pub fn run(
    list: &[u8],
    limit: usize,
    cartridge: Cartridge,
    ram: &mut [u16],
    flash: &mut [u16],
    out: &mut [u32],
) -> Ran
    ensures { (result ≡ ran_of (world cartridge flash.old ram.old) list.now limit (length out.old))
        × (ram.new ≡ (left (world cartridge flash.old ram.old) list.now limit (length out.old)).ram)
        × (flash.new ≡ (left (world cartridge flash.old ram.old) list.now limit (length out.old)).flash)
        × (out.new ≡ answers_in (world cartridge flash.old ram.old) list.now limit out.old) }
{
    match check_lines(list) {
        Err(refusal) => refused(cartridge, refusal, 0),
        Ok((_, reads)) if out.len() < reads => refused(cartridge, basics::refuse(29, 0), reads),
        Ok((lines, _)) => run_lines(list, limit.min(lines), cartridge, ram, flash, out),
    }
}

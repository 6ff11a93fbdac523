// Runs 001's vectors, and the vector files that the independent second program makes (second/README.md), and compares:
// a line for each family, and the first case that differs; the last line says whether every file was there and had cases.
#![tactic(auto)]

ghost use Rattle.std.specs.Prelude.{◌≡◌, ◌+◌, length};
ghost use Rattle.places.specs.Limits.{lent_limit};

use cases::fill::put;
use cases::record::{end_of, front};
use cases::tally::Tally;
use cases::{file, rooms, tally};
use places::LENT_LIMIT;
use sums::TABLE_ENTRIES;

mod card;
mod checksums;
mod loads;
mod play;
mod titles;
mod writes;

#[derive(Clone, Copy)]
pub enum Family {
    Sums,
    Load,
    Card,
    Machine,
    Jlp,
    Write,
    Cfg,
    Build,
    Bus,
}

const FAMILIES: usize = 9;

// Room for any buffer or built image, and for any RAM or flash.
fn buffer_room() -> [u8; 1200000]
    ensures { 1200000 ≡ length result }
{
    [0; 1200000]
}

const WORD_ROOM: usize = LENT_LIMIT + 257;

fn word_room() -> [u16; WORD_ROOM]
    ensures { lent_limit + 257 ≡ length result }
{
    [0; WORD_ROOM]
}

// Whether the record, its length and its fields, agrees.
fn agrees(
    family: Family,
    rec: &[u8],
    ieee: &[u32; TABLE_ENTRIES],
    a: &mut [u8],
    b: &mut [u8],
    ram: &mut [u16],
    flash: &mut [u16],
) -> bool {
    match family {
        Family::Sums => checksums::sums_agree(rec, a),
        Family::Load => loads::load_agrees(rec, ieee, a, b, ram, flash),
        Family::Card => card::card_agrees(rec, ieee, a, b, ram),
        Family::Machine | Family::Jlp => loads::machine_agrees(rec, ieee, a, b, ram, flash),
        Family::Write => writes::write_agrees(rec, ieee, a, b, ram),
        Family::Cfg | Family::Build => titles::build_agrees(rec, ieee, a, b),
        Family::Bus => titles::bus_agrees(rec, ieee, a, b, ram),
    }
}

fn run(
    family: Family,
    file: &[u8],
    ieee: &[u32; TABLE_ENTRIES],
    a: &mut [u8],
    b: &mut [u8],
    ram: &mut [u16],
    flash: &mut [u16],
) -> Tally {
    let mut t = tally::nothing();
    let mut at = 0;
    while at < file.len() {
        let end = end_of(file, at);
        t = tally::counted(t, agrees(family, &file[at..end], ieee, a, b, ram, flash));
        at = end;
    }
    t
}

// The family's name; answers its length.
fn put_name(family: Family, out: &mut [u8]) -> usize {
    match family {
        Family::Sums => put(out, 0, b"sums"),
        Family::Load => put(out, 0, b"load"),
        Family::Card => put(out, 0, b"card"),
        Family::Machine => put(out, 0, b"machine"),
        Family::Jlp => put(out, 0, b"jlp"),
        Family::Write => put(out, 0, b"write"),
        Family::Cfg => put(out, 0, b"cfg"),
        Family::Build => put(out, 0, b"build"),
        Family::Bus => put(out, 0, b"bus"),
    }
}

// Runs a family's records, and prints its line.
fn run_records(
    rt: &HostRuntime,
    family: Family,
    name: &[u8],
    file: &[u8],
    ieee: &[u32; TABLE_ENTRIES],
    a: &mut [u8],
    b: &mut [u8],
    ram: &mut [u16],
    flash: &mut [u16],
) -> Tally {
    let t = run(family, file, ieee, a, b, ram, flash);
    tally::report(rt, name, t);
    t
}

// Reads a family's file, NAME.vec, and runs it. A file that is missing, or not read to its end, has no case.
fn run_file(
    rt: &HostRuntime,
    family: Family,
    ieee: &[u32; TABLE_ENTRIES],
    file: &mut [u8],
    a: &mut [u8],
    b: &mut [u8],
    ram: &mut [u16],
    flash: &mut [u16],
) -> Tally {
    let mut name = [0u8; 16];
    let k = put_name(family, &mut name);
    let r = file::read_family(rt, &mut name, k, file);
    if !r.whole {
        tally::not_run(rt, front(&name, k));
        return tally::nothing();
    }
    run_records(
        rt,
        family,
        front(&name, k),
        front(file, r.n),
        ieee,
        a,
        b,
        ram,
        flash,
    )
}

fn family_of(k: usize) -> Family {
    match k {
        0 => Family::Sums,
        1 => Family::Load,
        2 => Family::Card,
        3 => Family::Machine,
        4 => Family::Jlp,
        5 => Family::Write,
        6 => Family::Cfg,
        7 => Family::Build,
        _ => Family::Bus,
    }
}

// Runs every family's file, and prints the line of all: how many cases, how many differ, how many files had any.
fn run_files(
    rt: &HostRuntime,
    before: Tally,
    file: &mut [u8],
    a: &mut [u8],
    b: &mut [u8],
    ram: &mut [u16],
    flash: &mut [u16],
) {
    let ieee = sums::tables(sums::IEEE);
    let mut all = before;
    let mut had = 0;
    let mut k = 0;
    while k < FAMILIES {
        let t = run_file(rt, family_of(k), &ieee, file, a, b, ram, flash);
        had = tally::with_cases(had, t);
        all = tally::both_of(all, t);
        k += 1;
    }
    tally::report_all(rt, all, had, FAMILIES as u64);
}

fn main(rt: HostRuntime) {
    let mut file = rooms::file_room();
    let mut a = rooms::image_room();
    let mut b = buffer_room();
    let mut ram = word_room();
    let mut flash = word_room();
    let first = checksums::vectors();
    tally::report(&rt, b"001", first);
    run_files(&rt, first, &mut file, &mut a, &mut b, &mut ram, &mut flash);
}

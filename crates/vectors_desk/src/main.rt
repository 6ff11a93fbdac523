// Runs the second program's vector files (second/README.md) of what the desk does with whole files, and compares: names, dates and
// labels, salvage, lists of accesses, back to BIN and CFG. It prints what `vectors` prints of the other families.
#![tactic(auto)]

ghost use Rattle.std.specs.Prelude.{◌≡◌, length};
ghost use Rattle.places.specs.Limits.{image_limit};

use cases::fill::put;
use cases::record::{end_of, front};
use cases::tally::Tally;
use cases::{file, rooms, tally};
use places::IMAGE_LIMIT;
use sums::TABLE_ENTRIES;

mod back;
mod names;
mod runs;
mod salvages;

#[derive(Clone, Copy)]
pub enum Family {
    Names,
    Dates,
    Label,
    Salvage,
    Runs,
    Back,
}

const FAMILIES: usize = 6;

// Room for any buffer.
fn buffer_room() -> [u8; IMAGE_LIMIT]
    ensures { image_limit ≡ length result }
{
    [0; IMAGE_LIMIT]
}

// Whether the record, its length and its fields, agrees.
fn agrees(
    family: Family,
    rec: &[u8],
    ieee: &[u32; TABLE_ENTRIES],
    image: &mut [u8],
    out: &mut [u8],
    text: &mut [u8],
) -> bool {
    match family {
        Family::Names => names::names_agree(rec, ieee, image, text),
        Family::Dates => names::date_agrees(rec),
        Family::Label => names::label_agrees(rec, ieee, text, out),
        Family::Salvage => salvages::salvage_agrees(rec, ieee, image, out, text),
        Family::Runs => runs::runs_agree(rec, ieee, image, out, text),
        Family::Back => back::back_agrees(rec, ieee, image, out, text),
    }
}

fn run(
    family: Family,
    file: &[u8],
    ieee: &[u32; TABLE_ENTRIES],
    image: &mut [u8],
    out: &mut [u8],
    text: &mut [u8],
) -> Tally {
    let mut t = tally::nothing();
    let mut at = 0;
    while at < file.len() {
        let end = end_of(file, at);
        t = tally::counted(t, agrees(family, &file[at..end], ieee, image, out, text));
        at = end;
    }
    t
}

// The family's name; answers its length.
fn put_name(family: Family, out: &mut [u8]) -> usize {
    match family {
        Family::Names => put(out, 0, b"names"),
        Family::Dates => put(out, 0, b"dates"),
        Family::Label => put(out, 0, b"label"),
        Family::Salvage => put(out, 0, b"salvage"),
        Family::Runs => put(out, 0, b"runs"),
        Family::Back => put(out, 0, b"back"),
    }
}

fn family_of(k: usize) -> Family {
    match k {
        0 => Family::Names,
        1 => Family::Dates,
        2 => Family::Label,
        3 => Family::Salvage,
        4 => Family::Runs,
        _ => Family::Back,
    }
}

// Runs a family's records, and prints its line.
fn run_records(
    rt: &HostRuntime,
    family: Family,
    name: &[u8],
    file: &[u8],
    ieee: &[u32; TABLE_ENTRIES],
    image: &mut [u8],
    out: &mut [u8],
    text: &mut [u8],
) -> Tally {
    let t = run(family, file, ieee, image, out, text);
    tally::report(rt, name, t);
    t
}

// Reads a family's file, NAME.vec, and runs it. A file that is missing, or not read to its end, has no case.
fn run_file(
    rt: &HostRuntime,
    family: Family,
    ieee: &[u32; TABLE_ENTRIES],
    file: &mut [u8],
    image: &mut [u8],
    out: &mut [u8],
    text: &mut [u8],
) -> Tally {
    let mut name = [0u8; 16];
    let k = put_name(family, &mut name);
    let r = file::read_family(rt, &mut name, k, file);
    if !r.whole {
        tally::not_run(rt, front(&name, k));
        return tally::nothing();
    }
    run_records(
        rt,
        family,
        front(&name, k),
        front(file, r.n),
        ieee,
        image,
        out,
        text,
    )
}

// Runs every family's file, and prints the line of all: how many cases, how many differ, how many files had any.
fn run_files(rt: &HostRuntime, file: &mut [u8], image: &mut [u8], out: &mut [u8], text: &mut [u8]) {
    let ieee = sums::tables(sums::IEEE);
    let mut all = tally::nothing();
    let mut had = 0;
    let mut k = 0;
    while k < FAMILIES {
        let t = run_file(rt, family_of(k), &ieee, file, image, out, text);
        had = tally::with_cases(had, t);
        all = tally::both_of(all, t);
        k += 1;
    }
    tally::report_all(rt, all, had, FAMILIES as u64);
}

fn main(rt: HostRuntime) {
    let mut file = rooms::file_room();
    let mut image = rooms::image_room();
    let mut out = buffer_room();
    let mut text = rooms::label_room();
    run_files(&rt, &mut file, &mut image, &mut out, &mut text);
}

// A case of the families load, machine and jlp: an image loaded, and accesses on what was loaded.
use crate::play::play_in;
use basics::both;
use cart::Cartridge;
use cases::digest::digest_tables;
use cases::fill::{take_bytes, take_packed, take_words};
use cases::record::{after, ends, front_words, get16, get32, has8, has32};
use cases::state::{Loading, load_in, same_active, same_end, same_words};
use header::Compat;
use sums::TABLE_ENTRIES;

fn same_compat(rec: &[u8], at: usize, c: Compat) -> bool {
    let voice = has8(rec, at, 0, c.intellivoice as usize);
    let ecs = has8(rec, at, 1, c.ecs as usize);
    let two = has8(rec, at, 2, c.intellivision2 as usize);
    let keyboard = has8(rec, at, 3, c.keyboard as usize);
    let stated = c.tutorvision;
    let tutor = has8(rec, at, 4, header::number_of(stated) as usize);
    both(both(voice, ecs), both(two, both(keyboard, tutor)))
}

// Number, place, blocks, words and the compatibility fields.
fn same_verdict(rec: &[u8], at: usize, l: Loading) -> bool {
    let r = l.refusal;
    let number = has8(rec, at, 0, r.number as usize);
    let place = has32(rec, at, 1, r.place);
    let blocks = has32(rec, at, 5, l.blocks);
    let words = has32(rec, at, 9, l.words);
    let compat = same_compat(rec, after(at, 13), l.compat);
    both(both(number, place), both(blocks, both(words, compat)))
}

// The initial tables and the active ones, which a load makes equal.
fn same_tables(want: usize, ieee: &[u32; TABLE_ENTRIES], c: Cartridge, scratch: &mut [u8]) -> bool {
    let initial = digest_tables(
        ieee,
        &c.initial_mapping,
        &c.initial_permissions,
        &c.flips,
        scratch,
    );
    both(initial == want, same_active(want, ieee, c, scratch))
}

// How many paragraphs can be read, k bytes on; with it the record ends.
pub fn readable_ends(rec: &[u8], at: usize, k: usize, c: Cartridge) -> bool {
    both(
        get16(rec, after(at, k)) == c.readable as usize,
        ends(rec, after(at, k), 2),
    )
}

// A load's answer, how many words of RAM it was lent, and the place of the record's next field.
#[derive(Clone, Copy)]
struct Loaded {
    loading: Loading,
    words: usize,
    next: usize,
}

fn load_case(rec: &[u8], image: &mut [u8], ram: &mut [u16], flash: &[u16]) -> Loaded {
    let f = take_bytes(rec, 4, image);
    let w = take_words(rec, f.next, ram);
    let loading = load_in(image, f.n, ram, w.n, flash, get32(rec, w.next));
    Loaded {
        loading,
        words: w.n,
        next: after(w.next, 4),
    }
}

// The verdict and the tables.
fn same_load(
    rec: &[u8],
    at: usize,
    ieee: &[u32; TABLE_ENTRIES],
    l: Loading,
    scratch: &mut [u8],
) -> bool {
    let verdict = same_verdict(rec, at, l);
    let want = get32(rec, after(at, 18));
    both(verdict, same_tables(want, ieee, l.cartridge, scratch))
}

// A load: the verdict, the tables, the RAM, and the readable paragraphs.
pub fn load_agrees(
    rec: &[u8],
    ieee: &[u32; TABLE_ENTRIES],
    image: &mut [u8],
    scratch: &mut [u8],
    ram: &mut [u16],
    flash: &[u16],
) -> bool {
    let x = load_case(rec, image, ram, flash);
    let at = x.next;
    let answer = same_load(rec, at, ieee, x.loading, scratch);
    let stored = same_words(get32(rec, after(at, 22)), ieee, ram, x.words, scratch);
    let l = x.loading;
    both(
        answer,
        both(stored, readable_ends(rec, at, 26, l.cartridge)),
    )
}

// What a record lends: the words of its RAM, all to the load, and some to the accesses; the words of its flash, how many
// words of flash the load is lent, and how many of its own the accesses. And the place of the record's next field.
#[derive(Clone, Copy)]
struct Lent {
    ram: usize,
    ram_then: usize,
    flash: usize,
    flash_at_load: usize,
    flash_then: usize,
    next: usize,
}

// A RAM lent whole, and no flash.
fn take_ram(rec: &[u8], at: usize, ram: &mut [u16]) -> Lent {
    let w = take_words(rec, at, ram);
    Lent {
        ram: w.n,
        ram_then: w.n,
        flash: 0,
        flash_at_load: 0,
        flash_then: 0,
        next: w.next,
    }
}

// A RAM and a flash, each with how much of it is lent.
fn take_lent(
    rec: &[u8],
    at: usize,
    scratch: &mut [u8],
    ram: &mut [u16],
    flash: &mut [u16],
) -> Lent {
    let w = take_words(rec, at, ram);
    let f = take_packed(rec, after(w.next, 4), scratch, flash);
    Lent {
        ram: w.n,
        ram_then: get32(rec, w.next),
        flash: f.n,
        flash_at_load: get32(rec, f.next),
        flash_then: get32(rec, after(f.next, 4)),
        next: after(f.next, 8),
    }
}

// A load and its accesses: the cartridge then, whether it loaded and every answer was the record's, how many words of RAM
// and of flash the record has, and the place of its next field.
#[derive(Clone, Copy)]
pub struct Ran {
    pub cartridge: Cartridge,
    pub good: bool,
    pub ram: usize,
    pub flash: usize,
    pub next: usize,
}

// The record's accesses on an image of n bytes, loaded.
fn run_lent(
    rec: &[u8],
    k: Lent,
    image: &[u8],
    n: usize,
    ram: &mut [u16],
    flash: &mut [u16],
) -> Ran {
    let l = load_in(image, n, ram, k.ram, flash, k.flash_at_load);
    let c = l.cartridge;
    let p = play_in(rec, k.next, c, ram, k.ram_then, flash, k.flash_then);
    let cartridge = p.cartridge;
    let r = l.refusal;
    Ran {
        cartridge,
        good: both(r.number == 0, p.good),
        ram: k.ram,
        flash: k.flash,
        next: p.next,
    }
}

// With a RAM alone, and with a flash beside it.
pub fn run_title(rec: &[u8], at: usize, image: &[u8], n: usize, ram: &mut [u16]) -> Ran {
    let k = take_ram(rec, at, ram);
    let mut none = [0u16; 0];
    run_lent(rec, k, image, n, ram, &mut none)
}

fn run_machine(
    rec: &[u8],
    at: usize,
    image: &[u8],
    n: usize,
    scratch: &mut [u8],
    ram: &mut [u16],
    flash: &mut [u16],
) -> Ran {
    let k = take_lent(rec, at, scratch, ram, flash);
    run_lent(rec, k, image, n, ram, flash)
}

// What the accesses leave.
fn same_left(
    rec: &[u8],
    ieee: &[u32; TABLE_ENTRIES],
    r: Ran,
    ram: &[u16],
    flash: &[u16],
    scratch: &mut [u8],
) -> bool {
    same_end(
        rec,
        r.next,
        ieee,
        r.cartridge,
        front_words(ram, r.ram),
        front_words(flash, r.flash),
        scratch,
    )
}

// Accesses after a load: each answer, and what they leave.
pub fn machine_agrees(
    rec: &[u8],
    ieee: &[u32; TABLE_ENTRIES],
    image: &mut [u8],
    scratch: &mut [u8],
    ram: &mut [u16],
    flash: &mut [u16],
) -> bool {
    let f = take_bytes(rec, 4, image);
    let r = run_machine(rec, f.next, image, f.n, scratch, ram, flash);
    both(r.good, same_left(rec, ieee, r, ram, flash, scratch))
}

// A case of the family runs: an image loaded, and a list of accesses run on it (02, W-214).
use accesses::Ran;
use basics::{both, least};
use cart::Cartridge;
use cases::fill::{take_bytes, take_packed, take_words};
use cases::record::{after, front, front_words, get16, get32, has8, has32};
use cases::state::{load_in, same_end};
use sums::TABLE_ENTRIES;

// Room for the RAM, the flash and the answers of a case; one that had more would differ.
const RAM_ROOM: usize = 73600;

const FLASH_ROOM: usize = 4096;

const ANSWERS: usize = 512;

// How many words the RAM and the flash of a record have, how many bytes its list, and the place of its next field.
#[derive(Clone, Copy)]
struct Given {
    ram: usize,
    flash: usize,
    list: usize,
    next: usize,
}

fn take_given(
    rec: &[u8],
    at: usize,
    scratch: &mut [u8],
    list: &mut [u8],
    ram: &mut [u16],
    flash: &mut [u16],
) -> Given {
    let w = take_words(rec, at, ram);
    let f = take_packed(rec, w.next, scratch, flash);
    let l = take_bytes(rec, f.next, list);
    Given {
        ram: w.n,
        flash: f.n,
        list: l.n,
        next: l.next,
    }
}

// The list run up to the record's limit, which stands at `at`, into as much room as stands behind it.
fn run_list(
    rec: &[u8],
    at: usize,
    list: &[u8],
    c: Cartridge,
    ram: &mut [u16],
    flash: &mut [u16],
    answers: &mut [u32],
) -> Ran {
    let room = least(get32(rec, after(at, 4)), answers.len());
    accesses::run(list, get32(rec, at), c, ram, flash, &mut answers[0..room])
}

// A run, and whether its image loaded.
#[derive(Clone, Copy)]
struct Done {
    ran: Ran,
    loaded: bool,
}

// A load and a run, each with all words of the record's RAM and flash.
fn run_given(
    rec: &[u8],
    g: Given,
    image: &[u8],
    list: &[u8],
    ram: &mut [u16],
    flash: &mut [u16],
    answers: &mut [u32],
) -> Done {
    let l = load_in(image, image.len(), ram, g.ram, flash, g.flash);
    let i = least(g.ram, ram.len());
    let j = least(g.flash, flash.len());
    let ran = run_list(
        rec,
        g.next,
        front(list, g.list),
        l.cartridge,
        &mut ram[0..i],
        &mut flash[0..j],
        answers,
    );
    let r = l.refusal;
    Done {
        ran,
        loaded: r.number == 0,
    }
}

// How many answers a run gave; in a refusal none, and its length is how many there would be.
fn count_of(r: Ran) -> usize {
    let f = r.refusal;
    if f.number == 0 { r.length } else { 0 }
}

fn asked_of(r: Ran) -> usize {
    let f = r.refusal;
    if f.number == 0 { 0 } else { r.length }
}

// Number, place, length, lines and the count of answers.
fn same_ran(rec: &[u8], at: usize, r: Ran) -> bool {
    let f = r.refusal;
    let number = has8(rec, at, 0, f.number as usize);
    let place = has32(rec, at, 1, f.place);
    let length = has32(rec, at, 5, asked_of(r));
    let lines = has32(rec, at, 9, r.lines);
    let count = get16(rec, after(at, 13)) == count_of(r);
    both(both(number, place), both(length, both(lines, count)))
}

// An answer as a record has it: a word and 1, or for silence 0 and 0.
fn same_answer(rec: &[u8], at: usize, answer: u32) -> bool {
    let word = get16(rec, at);
    if answer == cart::SILENCE {
        return both(word == 0, has8(rec, at, 2, 0));
    }
    both(word == answer as usize, has8(rec, at, 2, 1))
}

fn same_answers(rec: &[u8], at: usize, answers: &[u32]) -> bool {
    let mut same = true;
    let mut p = at;
    let mut i = 0;
    while i < answers.len() {
        same = both(same, same_answer(rec, p, answers[i]));
        p = after(p, 3);
        i += 1;
    }
    same
}

// The run's answer, and what it read.
fn same_told(rec: &[u8], at: usize, r: Ran, answers: &[u32]) -> bool {
    let n = least(count_of(r), answers.len());
    both(
        same_ran(rec, at, r),
        same_answers(rec, after(at, 15), &answers[0..n]),
    )
}

// What the run left, behind the record's answers.
fn same_left(
    rec: &[u8],
    at: usize,
    ieee: &[u32; TABLE_ENTRIES],
    c: Cartridge,
    ram: &[u16],
    flash: &[u16],
    scratch: &mut [u8],
) -> bool {
    let behind = after(at, 15 + 3 * get16(rec, after(at, 13)));
    same_end(rec, behind, ieee, c, ram, flash, scratch)
}

fn run_agrees(
    rec: &[u8],
    g: Given,
    ieee: &[u32; TABLE_ENTRIES],
    image: &[u8],
    list: &[u8],
    scratch: &mut [u8],
    ram: &mut [u16],
    flash: &mut [u16],
) -> bool {
    let mut answers = [0u32; ANSWERS];
    let d = run_given(rec, g, image, list, ram, flash, &mut answers);
    let at = after(g.next, 8);
    let r = d.ran;
    let told = both(d.loaded, same_told(rec, at, r, &answers));
    let left = same_left(
        rec,
        at,
        ieee,
        r.cartridge,
        front_words(ram, g.ram),
        front_words(flash, g.flash),
        scratch,
    );
    both(told, left)
}

pub fn runs_agree(
    rec: &[u8],
    ieee: &[u32; TABLE_ENTRIES],
    image: &mut [u8],
    scratch: &mut [u8],
    list: &mut [u8],
) -> bool {
    let mut ram = [0u16; RAM_ROOM];
    let mut flash = [0u16; FLASH_ROOM];
    let f = take_bytes(rec, 4, image);
    let g = take_given(rec, f.next, scratch, list, &mut ram, &mut flash);
    run_agrees(
        rec,
        g,
        ieee,
        front(image, f.n),
        list,
        scratch,
        &mut ram,
        &mut flash,
    )
}

// Accesses on the machine, each answer beside the one in the record.
use cart::Cartridge;
use cases::record::{after, get8, get16};
use places::Console;

// The machine after some accesses, and whether every answer was the record's.
#[derive(Clone, Copy)]
pub struct Played {
    pub cartridge: Cartridge,
    pub good: bool,
    pub next: usize,
}

// Whether a read's answer is the record's: a word that is heard, or silence.
fn is_answer(answer: Option<u16>, value: u16, heard: usize) -> bool {
    match answer {
        Some(w) => heard == 1 && w == value,
        None => heard == 0 && value == 0,
    }
}

// One access: 0 reads, 1 writes, 2 resets. The record has what a read heard, and how many mapping entries a write assigned.
fn access(rec: &[u8], at: usize, c: Cartridge, ram: &mut [u16], flash: &mut [u16]) -> Played {
    let op = get8(rec, at);
    let place = Console(get16(rec, after(at, 1)) as u16);
    let value = get16(rec, after(at, 3)) as u16;
    let next = after(at, 6);
    if op == 0 {
        let answer = cart::read(c, ram, place);
        return Played {
            cartridge: c,
            good: is_answer(answer, value, get8(rec, after(at, 5))),
            next,
        };
    }
    if op == 1 {
        let done = cart::write(c, ram, flash, place, value);
        let cartridge = done.cartridge;
        return Played {
            cartridge,
            good: done.assigned as usize == get8(rec, after(at, 5)),
            next,
        };
    }
    Played {
        cartridge: cart::reset(c),
        good: op == 2,
        next,
    }
}

// The accesses of a record, their count first.
fn play(rec: &[u8], at: usize, c: Cartridge, ram: &mut [u16], flash: &mut [u16]) -> Played {
    let n = get16(rec, at);
    let mut now = Played {
        cartridge: c,
        good: true,
        next: after(at, 2),
    };
    let mut i = 0;
    while i < n {
        let before = now.cartridge;
        let done = access(rec, now.next, before, ram, flash);
        let good = basics::both(now.good, done.good);
        now = done;
        now.good = good;
        i += 1;
    }
    now
}

// The accesses on the first n words of a RAM and the first k of a flash.
pub fn play_in(
    rec: &[u8],
    at: usize,
    c: Cartridge,
    ram: &mut [u16],
    n: usize,
    flash: &mut [u16],
    k: usize,
) -> Played {
    let i = basics::least(n, ram.len());
    let j = basics::least(k, flash.len());
    play(rec, at, c, &mut ram[0..i], &mut flash[0..j])
}

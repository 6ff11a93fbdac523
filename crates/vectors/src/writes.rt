// A case of the family write: an image of marked paragraphs written into a buffer.
use basics::{Declined, both, least};
use cart::Cartridge;
use cases::digest::digest;
use cases::fill::{lay, take_buffer, take_bytes, take_laid};
use cases::record::{ends, front, front_words, get8, has8, has32};
use places::LOCUTUS_PARAGRAPHS;
use sums::TABLE_ENTRIES;

// Paragraph p is bit p mod 8 of byte p div 8.
fn marks_of(bits: &[u8]) -> [bool; LOCUTUS_PARAGRAPHS] {
    let mut marks = [false; LOCUTUS_PARAGRAPHS];
    let mut p = 0;
    while p < LOCUTUS_PARAGRAPHS {
        let b = get8(bits, p / 8);
        marks[p] = (b >> (p % 8)) % 2 == 1;
        p += 1;
    }
    marks
}

// The tables and the marks of a record, how many words its RAM has, which stands between them, and the place of its buffer.
#[derive(Clone, Copy)]
struct Given {
    cartridge: Cartridge,
    marks: [bool; LOCUTUS_PARAGRAPHS],
    words: usize,
    buffer: usize,
}

// The cartridge of a record's flags and of these tables.
fn cartridge_given(rec: &[u8], t: &[u8]) -> Cartridge {
    let flags = flags_of(rec);
    tables::cartridge_of(tables::jlp_of(&flags), t)
}

fn take_given(rec: &[u8], room: &mut [u8], ram: &mut [u16]) -> Given {
    let t = take_bytes(rec, 28, room);
    let cartridge = cartridge_given(rec, front(room, t.n));
    let w = take_laid(rec, t.next, ram);
    let m = take_bytes(rec, w.next, room);
    let marks = marks_of(front(room, m.n));
    Given {
        cartridge,
        marks,
        words: w.n,
        buffer: m.next,
    }
}

// The flags and the UID stand first in the record.
fn flags_of(rec: &[u8]) -> [u8; 16] {
    let mut flags = [0u8; 16];
    lay(rec, 4, 16, &mut flags, 0);
    flags
}

fn uid_of(rec: &[u8]) -> [u8; 8] {
    let mut uid = [0u8; 8];
    lay(rec, 20, 8, &mut uid, 0);
    uid
}

// A write into the first n bytes of a buffer.
fn write_in(
    rec: &[u8],
    c: Cartridge,
    marks: &[bool; LOCUTUS_PARAGRAPHS],
    ram: &[u16],
    out: &mut [u8],
    n: usize,
) -> Result<usize, Declined> {
    let flags = flags_of(rec);
    let uid = uid_of(rec);
    let m = c.mapping;
    let k = least(n, out.len());
    save::write(
        &mut out[0..k],
        &flags,
        &uid,
        &m,
        &c.permissions,
        &c.flips,
        ram,
        marks,
    )
}

// A writing as a record says it: no refusal and the image's length, or the refusal and the length that is needed.
fn said_of(w: Result<usize, Declined>) -> Declined {
    match w {
        Ok(length) => Declined {
            refusal: basics::no_refusal(),
            length,
        },
        Err(d) => d,
    }
}

fn same_writing(rec: &[u8], at: usize, w: Result<usize, Declined>, whole: usize) -> bool {
    let d = said_of(w);
    let number = has8(rec, at, 0, d.refusal.number as usize);
    let place = has32(rec, at, 1, d.refusal.place);
    let length = has32(rec, at, 5, d.length);
    let bytes = has32(rec, at, 9, whole);
    both(
        both(number, place),
        both(length, both(bytes, ends(rec, at, 13))),
    )
}

// A write: the answer, and the whole buffer.
fn write_case(
    rec: &[u8],
    g: Given,
    ieee: &[u32; TABLE_ENTRIES],
    ram: &[u16],
    out: &mut [u8],
) -> bool {
    let b = take_buffer(rec, g.buffer, out);
    let marks = g.marks;
    let w = write_in(rec, g.cartridge, &marks, ram, out, b.n);
    same_writing(rec, b.next, w, digest(ieee, front(out, b.n)))
}

pub fn write_agrees(
    rec: &[u8],
    ieee: &[u32; TABLE_ENTRIES],
    room: &mut [u8],
    out: &mut [u8],
    ram: &mut [u16],
) -> bool {
    let g = take_given(rec, room, ram);
    write_case(rec, g, ieee, front_words(ram, g.words), out)
}

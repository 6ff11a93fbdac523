// A record's image loaded, and what a record says of a cartridge and its stores at the end.
use crate::digest::{digest_tables, digest_words};
use crate::record::{after, ends, front, front_words, get16, get32, has8};
use basics::{Refusal, both, least};
use cart::Cartridge;
use header::Compat;
use load::Loaded;
use sums::TABLE_ENTRIES;

// A load as a record says it: its refusal, and zero in all else of a refused one.
#[derive(Clone, Copy)]
pub struct Loading {
    pub refusal: Refusal,
    pub cartridge: Cartridge,
    pub compat: Compat,
    pub blocks: usize,
    pub words: usize,
}

fn loading_of(answer: Result<Loaded, Refusal>) -> Loading {
    match answer {
        Ok(l) => {
            let cartridge = l.cartridge;
            Loading {
                refusal: basics::no_refusal(),
                cartridge,
                compat: l.compat,
                blocks: l.blocks,
                words: l.words,
            }
        }
        Err(refusal) => Loading {
            refusal,
            cartridge: tables::no_cartridge(),
            compat: header::no_compat(),
            blocks: 0,
            words: 0,
        },
    }
}

// A load from the first bytes of an image into the first words of a RAM, with the first k words of a flash.
pub fn load_in(
    image: &[u8],
    n: usize,
    ram: &mut [u16],
    words: usize,
    flash: &[u16],
    k: usize,
) -> Loading {
    let w = least(words, ram.len());
    loading_of(load::load(front(image, n), &mut ram[0..w], front_words(flash, k)))
}

// The active tables.
pub fn same_active(
    want: usize,
    ieee: &[u32; TABLE_ENTRIES],
    c: Cartridge,
    scratch: &mut [u8],
) -> bool {
    digest_tables(ieee, &c.mapping, &c.permissions, &c.flips, scratch) == want
}

// The first n words of a RAM or a flash.
pub fn same_words(
    want: usize,
    ieee: &[u32; TABLE_ENTRIES],
    words: &[u16],
    n: usize,
    scratch: &mut [u8],
) -> bool {
    digest_words(ieee, front_words(words, n), scratch) == want
}

// The readable paragraphs, and whether the accelerators are on; with these the record ends.
fn state_ends(rec: &[u8], at: usize, c: Cartridge) -> bool {
    let j = c.jlp;
    let on = has8(rec, at, 2, if j.on { 1 } else { 0 });
    let readable = get16(rec, at) == c.readable as usize;
    both(both(readable, on), ends(rec, at, 3))
}

// What accesses leave: the active tables, all words of the record's RAM and flash, the readable paragraphs, and the accelerators.
pub fn same_end(
    rec: &[u8],
    at: usize,
    ieee: &[u32; TABLE_ENTRIES],
    c: Cartridge,
    ram: &[u16],
    flash: &[u16],
    scratch: &mut [u8],
) -> bool {
    let tables = same_active(get32(rec, at), ieee, c, scratch);
    let stored = digest_words(ieee, ram, scratch) == get32(rec, after(at, 4));
    let kept = digest_words(ieee, flash, scratch) == get32(rec, after(at, 8));
    let state = state_ends(rec, after(at, 12), c);
    both(both(tables, state), both(stored, kept))
}

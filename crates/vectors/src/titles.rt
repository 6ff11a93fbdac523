// A case of each family on titles: a BIN, a CFG and a label built, and a built image played beside the plain cartridge.
use crate::loads::{readable_ends, run_title};
use basics::{Declined, both, least};
use build::Built;
use cases::digest::digest;
use cases::fill::{take_buffer, take_bytes};
use cases::record::{ends, front, get32, has8, has32};
use cases::rooms;
use cases::state::same_words;
use sums::TABLE_ENTRIES;

// Room for any CFG.
const CFG_ROOM: usize = 20480;

// How many bytes the BIN and the CFG have, and the place of the record's next field.
#[derive(Clone, Copy)]
struct Title {
    bin: usize,
    cfg: usize,
    next: usize,
}

fn take_title(rec: &[u8], bin: &mut [u8], cfg: &mut [u8]) -> Title {
    let b = take_bytes(rec, 4, bin);
    let c = take_bytes(rec, b.next, cfg);
    Title {
        bin: b.n,
        cfg: c.n,
        next: c.next,
    }
}

// The same with a label, how many bytes it has, and the place behind it.
#[derive(Clone, Copy)]
struct Labelled {
    title: Title,
    label: usize,
    next: usize,
}

fn take_labelled(rec: &[u8], bin: &mut [u8], cfg: &mut [u8], label: &mut [u8]) -> Labelled {
    let title = take_title(rec, bin, cfg);
    let l = take_bytes(rec, title.next, label);
    Labelled {
        title,
        label: l.n,
        next: l.next,
    }
}

// A build of the title, with a label of l bytes, into the first n bytes of a buffer.
fn build_in(
    bin: &[u8],
    cfg: &[u8],
    t: Title,
    label: &[u8],
    l: usize,
    out: &mut [u8],
    n: usize,
) -> Result<Built, Declined> {
    let k = least(n, out.len());
    build::build(
        front(bin, t.bin),
        front(cfg, t.cfg),
        front(label, l),
        &mut out[0..k],
    )
}

fn same_building(rec: &[u8], at: usize, answer: Result<Built, Declined>, whole: usize) -> bool {
    let (r, n, words) = match answer {
        Ok(b) => (basics::no_refusal(), b.length, b.needed),
        Err(d) => (d.refusal, d.length, 0),
    };
    let number = has8(rec, at, 0, r.number as usize);
    let place = has32(rec, at, 1, r.place);
    let length = has32(rec, at, 5, n);
    let needed = has32(rec, at, 9, words as usize);
    let bytes = has32(rec, at, 13, whole);
    both(
        both(number, place),
        both(both(length, needed), both(bytes, ends(rec, at, 17))),
    )
}

// A build: the answer, and the whole buffer.
fn built_agrees(
    rec: &[u8],
    ieee: &[u32; TABLE_ENTRIES],
    bin: &mut [u8],
    cfg: &mut [u8],
    label: &mut [u8],
    out: &mut [u8],
) -> bool {
    let t = take_labelled(rec, bin, cfg, label);
    let o = take_buffer(rec, t.next, out);
    let b = build_in(bin, cfg, t.title, label, t.label, out, o.n);
    same_building(rec, o.next, b, digest(ieee, front(out, o.n)))
}

pub fn build_agrees(
    rec: &[u8],
    ieee: &[u32; TABLE_ENTRIES],
    bin: &mut [u8],
    out: &mut [u8],
) -> bool {
    let mut cfg = [0u8; CFG_ROOM];
    let mut label = rooms::label_room();
    built_agrees(rec, ieee, bin, &mut cfg, &mut label, out)
}

// A title built: the image's length where it was, and the place of the record's next field.
#[derive(Clone, Copy)]
struct Pressed {
    length: Option<usize>,
    next: usize,
}

fn press(rec: &[u8], bin: &mut [u8], cfg: &mut [u8], image: &mut [u8]) -> Pressed {
    let t = take_title(rec, bin, cfg);
    let length = match build_in(bin, cfg, t, cfg, 0, image, image.len()) {
        Ok(b) => Some(b.length),
        Err(_) => None,
    };
    Pressed {
        length,
        next: t.next,
    }
}

// A title built, loaded and played, the machine's answers beside the plain cartridge's; then the RAM and the readable paragraphs.
pub fn bus_agrees(
    rec: &[u8],
    ieee: &[u32; TABLE_ENTRIES],
    bin: &mut [u8],
    image: &mut [u8],
    ram: &mut [u16],
) -> bool {
    let mut cfg = [0u8; CFG_ROOM];
    let x = press(rec, bin, &mut cfg, image);
    let Some(n) = x.length else {
        return false;
    };
    let r = run_title(rec, x.next, image, n, ram);
    let stored = same_words(get32(rec, r.next), ieee, ram, r.ram, image);
    both(
        r.good,
        both(stored, readable_ends(rec, r.next, 4, r.cartridge)),
    )
}

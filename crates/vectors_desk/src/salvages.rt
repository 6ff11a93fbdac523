// A case of the family salvage: a damaged image salvaged into a buffer, the places of the blocks left out, and the text that the program
// prints of it (02, W-208).
use basics::{Declined, Refusal, both, least};
use cases::digest::{digest, text_ends};
use cases::fill::{put, put_line, take_buffer, take_bytes};
use cases::record::{after, front, get32, has8, has32};
use places::CARD_LIMIT;
use recovery::Salvaged;
use sums::TABLE_ENTRIES;

// Room for the places of the blocks that a case loses; one that lost more would differ.
const PLACES: usize = 64;

// The buffer that the program has.
const PROGRAM_ROOM: usize = CARD_LIMIT + 1;

// A salvage as a record says it: a refused one has zero in all else but the length at 29.
#[derive(Clone, Copy)]
struct Salvaging {
    refusal: Refusal,
    salvaged: Salvaged,
}

fn salvaging_of(answer: Result<Salvaged, Declined>) -> Salvaging {
    match answer {
        Ok(salvaged) => Salvaging {
            refusal: basics::no_refusal(),
            salvaged,
        },
        Err(d) => Salvaging {
            refusal: d.refusal,
            salvaged: Salvaged {
                length: d.length,
                kept: 0,
                dropped: 0,
                stopped: Some(0),
            },
        },
    }
}

// Where it stopped, as a record says it: all ones for nowhere, and 0 in a refusal.
fn stopped_of(s: Salvaged) -> usize {
    match s.stopped {
        None => 4294967295,
        Some(p) => p,
    }
}

fn same_salvaging(rec: &[u8], at: usize, w: Salvaging) -> bool {
    let r = w.refusal;
    let s = w.salvaged;
    let number = has8(rec, at, 0, r.number as usize);
    let place = has32(rec, at, 1, r.place);
    let length = has32(rec, at, 5, s.length);
    let kept = has32(rec, at, 9, s.kept);
    let dropped = has32(rec, at, 13, s.dropped);
    let stopped = has32(rec, at, 17, stopped_of(s));
    both(
        both(number, place),
        both(both(length, kept), both(dropped, stopped)),
    )
}

// Whether the places of a record are these.
fn same_places(rec: &[u8], at: usize, places: &[usize]) -> bool {
    let mut same = true;
    let mut p = at;
    let mut i = 0;
    while i < places.len() {
        same = both(same, get32(rec, p) == places[i]);
        p = after(p, 4);
        i += 1;
    }
    same
}

fn put_stopped(out: &mut [u8], at: usize, stopped: Option<usize>) -> usize {
    match stopped {
        None => put(out, at, b"stopped=none\n"),
        Some(p) => put_line(out, at, b"stopped=", p),
    }
}

fn put_drops(out: &mut [u8], at: usize, places: &[usize]) -> usize {
    let mut p = at;
    let mut i = 0;
    while i < places.len() {
        p = put_line(out, p, b"drop=", places[i]);
        i += 1;
    }
    p
}

// The program's lines of an answer; answers their length.
fn put_salvage(out: &mut [u8], w: Salvaging, places: &[usize]) -> usize {
    let r = w.refusal;
    let s = w.salvaged;
    if r.number != 0 {
        let a = put(out, 0, b"result=refused\n");
        let b = put_line(out, a, b"code=", r.number as usize);
        return put_line(out, b, b"at=", r.place);
    }
    let a = put_line(out, 0, b"kept=", s.kept);
    let b = put_line(out, a, b"dropped=", s.dropped);
    let p = put_stopped(out, b, s.stopped);
    put_drops(out, p, places)
}

// The text for an image, as the program comes to it: the card's 30 first, and its own buffer, which suffices where the record's
// may not. Answers its length.
fn put_text(text: &mut [u8], image: &[u8], out: &mut [u8], places: &[usize]) -> usize {
    let n = least(PROGRAM_ROOM, out.len());
    let s = salvaging_of(recovery::answer(image, &mut out[0..n]));
    let k = least(s.salvaged.dropped, places.len());
    put_salvage(text, s, &places[0..k])
}

// The place behind the places of the blocks left out, of which a record has as many as it says.
fn behind_places(rec: &[u8], at: usize) -> usize {
    after(at, 21 + 4 * get32(rec, after(at, 13)))
}

// The answer, the places of the blocks left out, and the whole buffer.
fn same_answer(
    rec: &[u8],
    at: usize,
    ieee: &[u32; TABLE_ENTRIES],
    s: Salvaging,
    places: &[usize],
    whole: &[u8],
) -> bool {
    let listed = same_places(rec, after(at, 21), places);
    let bytes = get32(rec, behind_places(rec, at)) == digest(ieee, whole);
    both(same_salvaging(rec, at, s), both(listed, bytes))
}

// A salvage into the first n bytes of a buffer.
fn salvage_in(image: &[u8], out: &mut [u8], n: usize) -> Salvaging {
    let k = least(n, out.len());
    salvaging_of(recovery::salvage(image, &mut out[0..k]))
}

fn salvage_case(
    rec: &[u8],
    at: usize,
    ieee: &[u32; TABLE_ENTRIES],
    image: &[u8],
    out: &mut [u8],
    n: usize,
    text: &mut [u8],
) -> bool {
    let mut places = [0usize; PLACES];
    recovery::drops(image, &mut places);
    let s = salvage_in(image, out, n);
    let k = least(s.salvaged.dropped, PLACES);
    let answer = same_answer(rec, at, ieee, s, &places[0..k], front(out, n));
    let long = put_text(text, image, out, &places);
    let lines_at = after(behind_places(rec, at), 4);
    both(answer, text_ends(rec, lines_at, ieee, front(text, long)))
}

// A salvage: its answer, and the program's text.
pub fn salvage_agrees(
    rec: &[u8],
    ieee: &[u32; TABLE_ENTRIES],
    image: &mut [u8],
    out: &mut [u8],
    text: &mut [u8],
) -> bool {
    let f = take_bytes(rec, 4, image);
    let b = take_buffer(rec, f.next, out);
    salvage_case(rec, b.next, ieee, front(image, f.n), out, b.n, text)
}

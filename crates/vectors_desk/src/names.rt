// A case of the families names, dates and label: texts looked up in a label and an image, a release date, and a label's block written.
use basics::{Declined, Refusal, both, least};
use blocks::Frame;
use cases::digest::{ONES, digest, ended};
use cases::fill::{take_buffer, take_bytes};
use cases::record::{after, ends, front, get8, get16, get32, has8, has32, rest};
use lookup::Place;
use metadata::{ReleaseDate, Span, Stands};
use sums::TABLE_ENTRIES;

// The place behind the sub-record at p, and how many were passed.
#[derive(Clone, Copy)]
struct Passed {
    next: usize,
    records: usize,
}

fn pass(s: &[u8], p: usize, records: usize) -> Passed {
    match metadata::record_at(s, p) {
        Stands::End => Passed { next: p, records },
        Stands::Cut => Passed { next: p, records },
        Stands::Text(_, text) => Passed {
            next: text.to,
            records: after(records, 1),
        },
    }
}

// How many sub-records a payload has; it has no more than bytes.
fn records_of(s: &[u8]) -> usize {
    let mut now = Passed {
        next: 0,
        records: 0,
    };
    let mut i = 0;
    while i < s.len() {
        now = pass(s, now.next, now.records);
        i += 1;
    }
    now.records
}

// How far an image's blocks were read: the next block's place, and the number and the sum of the sub-records so far.
#[derive(Clone, Copy)]
struct Told {
    over: bool,
    next: usize,
    records: usize,
    sum: u32,
}

// The sub-records of the block x of type t, and its end.
fn tell_block(x: &[u8], t: u8, q: usize, before: Told, ieee: &[u32; TABLE_ENTRIES]) -> Told {
    if t != blocks::METADATA_TYPE {
        return Told {
            over: false,
            next: q,
            records: before.records,
            sum: before.sum,
        };
    }
    let payload = rest(x, blocks::FRAME_SIZE);
    Told {
        over: false,
        next: q,
        records: after(before.records, records_of(payload)),
        sum: sums::sum_by(ieee, before.sum, payload),
    }
}

fn tell_next(image: &[u8], before: Told, ieee: &[u32; TABLE_ENTRIES]) -> Told {
    let f = blocks::frame_at(image, before.next);
    match f {
        Frame::Framed(t, q) => tell_block(rest(front(image, q), before.next), t, q, before, ieee),
        Frame::Over => Told {
            over: true,
            next: before.next,
            records: before.records,
            sum: before.sum,
        },
        Frame::Cut => Told {
            over: true,
            next: before.next,
            records: before.records,
            sum: before.sum,
        },
    }
}

// The sub-records of an image, which has no more blocks than bytes.
fn tell(image: &[u8], ieee: &[u32; TABLE_ENTRIES]) -> Told {
    let mut now = Told {
        over: false,
        next: blocks::FIRST_BLOCK,
        records: 0,
        sum: ONES,
    };
    let mut i = 0;
    while i < image.len() {
        if now.over {
            return now;
        }
        now = tell_next(image, now, ieee);
        i += 1;
    }
    now
}

fn bit(b: bool, weight: usize) -> usize {
    if b { weight } else { 0 }
}

// Single-value tags given twice: 0x00 and 0x01 of the image, then of the label.
fn twice_in(label: &[u8], image: &[u8]) -> usize {
    let a = bit(lookup::is_twice(image, metadata::NAME_TAG), 1);
    let b = bit(lookup::is_twice(image, metadata::SHORT_NAME_TAG), 2);
    let c = bit(metadata::is_twice(label, metadata::NAME_TAG), 4);
    let d = bit(metadata::is_twice(label, metadata::SHORT_NAME_TAG), 8);
    after(after(a, b), after(c, d))
}

// A lookup's refusal, whatever is asked.
fn refusal_of(label: &[u8], image: &[u8]) -> Refusal {
    match lookup::find(label, image, 0, 0) {
        Err(r) => r,
        Ok(_) => basics::no_refusal(),
    }
}

// Number and place; then the sub-records and what is given twice, all 0 in a refusal.
fn same_records(
    rec: &[u8],
    at: usize,
    ieee: &[u32; TABLE_ENTRIES],
    label: &[u8],
    image: &[u8],
) -> bool {
    let r = refusal_of(label, image);
    let number = has8(rec, at, 0, r.number as usize);
    let verdict = both(number, has32(rec, at, 1, r.place));
    if r.number != 0 {
        let none = both(has32(rec, at, 5, 0), has32(rec, at, 9, 0));
        return both(verdict, both(none, has8(rec, at, 13, 0)));
    }
    let t = tell(image, ieee);
    let records = has32(rec, at, 5, t.records);
    let bytes = has32(rec, at, 9, ended(t.sum));
    let twice = has8(rec, at, 13, twice_in(label, image));
    both(verdict, both(both(records, bytes), twice))
}

// A text's file, and where it starts and ends in it.
fn same_span(rec: &[u8], at: usize, source: usize, x: Span) -> bool {
    let ended = after(get32(rec, after(at, 1)), get32(rec, after(at, 5)));
    let start = has32(rec, at, 1, x.from);
    both(both(has8(rec, at, 0, source), start), ended == x.to)
}

// One text asked for: where it was found.
fn same_text(rec: &[u8], asked: usize, at: usize, label: &[u8], image: &[u8]) -> bool {
    let tag = basics::byte_at(rec, asked);
    let n = get32(rec, after(asked, 1));
    match lookup::find(label, image, tag, n) {
        Ok(Some(Place::Label(x))) => same_span(rec, at, 1, x),
        Ok(Some(Place::Image(x))) => same_span(rec, at, 2, x),
        Ok(None) | Err(_) => same_span(rec, at, 0, Span { from: 0, to: 0 }),
    }
}

// Every text asked for: as many fields of 5 bytes at `asked`, and the answers, of 9 bytes, at `at`.
fn same_texts(
    rec: &[u8],
    asked: usize,
    count: usize,
    at: usize,
    label: &[u8],
    image: &[u8],
) -> bool {
    let mut good = true;
    let mut p = asked;
    let mut q = at;
    let mut i = 0;
    while i < count {
        good = both(good, same_text(rec, p, q, label, image));
        p = after(p, 5);
        q = after(q, 9);
        i += 1;
    }
    both(good, ends(rec, q, 0))
}

// Names: the lookup's refusal, the image's sub-records, and each text asked for.
fn names_case(
    rec: &[u8],
    at: usize,
    ieee: &[u32; TABLE_ENTRIES],
    label: &[u8],
    image: &[u8],
) -> bool {
    let count = get16(rec, at);
    let asked = after(at, 2);
    let told = after(asked, 5 * count);
    both(
        same_records(rec, told, ieee, label, image),
        same_texts(rec, asked, count, after(told, 14), label, image),
    )
}

pub fn names_agree(
    rec: &[u8],
    ieee: &[u32; TABLE_ENTRIES],
    image: &mut [u8],
    label: &mut [u8],
) -> bool {
    let i = take_bytes(rec, 4, image);
    let l = take_bytes(rec, i.next, label);
    names_case(rec, l.next, ieee, front(label, l.n), front(image, i.n))
}

// A field that may not be given is 0 then.
fn given(field: Option<u8>) -> usize {
    usize::from(field.unwrap_or(0))
}

fn same_day(rec: &[u8], at: usize, d: ReleaseDate) -> bool {
    let year = get16(rec, at) == d.year as usize;
    both(
        year,
        both(
            has8(rec, at, 2, given(d.month)),
            has8(rec, at, 3, given(d.day)),
        ),
    )
}

fn same_time(rec: &[u8], at: usize, d: ReleaseDate) -> bool {
    let hour = has8(rec, at, 4, d.hour as usize);
    let minute = has8(rec, at, 5, d.minute as usize);
    let second = has8(rec, at, 6, d.second as usize);
    let hours = has8(rec, at, 7, usize::from(d.zone_hours.cast_unsigned()));
    let minutes = has8(rec, at, 8, d.zone_minutes as usize);
    both(both(hour, both(minute, second)), both(hours, minutes))
}

// A release date.
pub fn date_agrees(rec: &[u8]) -> bool {
    let at = after(5, get8(rec, 4));
    let d = metadata::date_of(rest(front(rec, at), 5));
    both(
        both(same_day(rec, at, d), same_time(rec, at, d)),
        ends(rec, at, 9),
    )
}

// A label's block into the first n bytes of a buffer.
fn write_in(out: &mut [u8], n: usize, label: &[u8], long: usize) -> Result<usize, Declined> {
    let k = least(n, out.len());
    label::write(&mut out[0..k], front(label, long))
}

// A writing as a record says it: no refusal and the block's length, or the refusal and the length that is needed.
fn said_of(w: Result<usize, Declined>) -> Declined {
    match w {
        Ok(length) => Declined {
            refusal: basics::no_refusal(),
            length,
        },
        Err(d) => d,
    }
}

fn same_writing(rec: &[u8], at: usize, w: Result<usize, Declined>, whole: usize) -> bool {
    let d = said_of(w);
    let number = has8(rec, at, 0, d.refusal.number as usize);
    let place = has32(rec, at, 1, d.refusal.place);
    let length = has32(rec, at, 5, d.length);
    let bytes = has32(rec, at, 9, whole);
    both(
        both(number, place),
        both(length, both(bytes, ends(rec, at, 13))),
    )
}

// A label's block: the answer, and the whole buffer.
pub fn label_agrees(
    rec: &[u8],
    ieee: &[u32; TABLE_ENTRIES],
    label: &mut [u8],
    out: &mut [u8],
) -> bool {
    let l = take_bytes(rec, 4, label);
    let o = take_buffer(rec, l.next, out);
    let w = write_in(out, o.n, label, l.n);
    same_writing(rec, o.next, w, digest(ieee, front(out, o.n)))
}

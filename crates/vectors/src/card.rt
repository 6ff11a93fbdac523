// A case of the image card: what it answers for an input, as the lines that it prints (01, Bench cases).
use basics::{Refusal, least};
use cases::digest::text_ends;
use cases::fill::{Taken, fill_words, put, put_line, take_bytes};
use cases::record::front;
use places::CARD_WORDS;
use report::Counts;
use sums::TABLE_ENTRIES;

// The card's text; answers its length.
fn put_card(out: &mut [u8], answer: Result<Counts, Refusal>) -> usize {
    match answer {
        Ok(r) => {
            let a = put(out, 0, b"result=loaded\n");
            let b = put_line(out, a, b"blocks=", r.blocks);
            put_line(out, b, b"words=", r.words)
        }
        Err(f) => {
            let a = put(out, 0, b"result=refused\n");
            let b = put_line(out, a, b"code=", f.number as usize);
            put_line(out, b, b"at=", f.place)
        }
    }
}

// The text for a record's input, on a RAM of zeros.
fn take_card(rec: &[u8], input: &mut [u8], text: &mut [u8], ram: &mut [u16]) -> Taken {
    let f = take_bytes(rec, 4, input);
    let n = least(CARD_WORDS, ram.len());
    fill_words(&mut ram[0..n], 0);
    let r = report::answer(front(input, f.n), &mut ram[0..n]);
    Taken {
        n: put_card(text, r),
        next: f.next,
    }
}

pub fn card_agrees(
    rec: &[u8],
    ieee: &[u32; TABLE_ENTRIES],
    input: &mut [u8],
    text: &mut [u8],
    ram: &mut [u16],
) -> bool {
    let c = take_card(rec, input, text, ram);
    text_ends(rec, c.next, ieee, front(text, c.n))
}

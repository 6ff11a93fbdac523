// A case of the family back: an image turned back into its BIN and its CFG (02, W-213).
use basics::{both, least};
use cases::digest::digest;
use cases::fill::{take_buffer, take_bytes};
use cases::record::{after, ends, front, has8, has32};
use sums::TABLE_ENTRIES;
use unbuild::Unbuilding;

// The BIN and the CFG of an image, into the first n bytes of one buffer and the first k of another.
fn unbuild_in(image: &[u8], bin: &mut [u8], n: usize, cfg: &mut [u8], k: usize) -> Unbuilding {
    let i = least(n, bin.len());
    let j = least(k, cfg.len());
    unbuild::unbuild(image, &mut bin[0..i], &mut cfg[0..j])
}

// Number, place and both lengths.
fn same_unbuilding(rec: &[u8], at: usize, u: Unbuilding) -> bool {
    let r = u.refusal;
    let number = has8(rec, at, 0, r.number as usize);
    let place = has32(rec, at, 1, r.place);
    let bin = has32(rec, at, 5, u.bin);
    let cfg = has32(rec, at, 9, u.cfg);
    both(both(number, place), both(bin, cfg))
}

// Both buffers, whole; with their digests the record ends.
fn same_buffers(
    rec: &[u8],
    at: usize,
    ieee: &[u32; TABLE_ENTRIES],
    bin: &[u8],
    cfg: &[u8],
) -> bool {
    let b = has32(rec, at, 0, digest(ieee, bin));
    let c = has32(rec, at, 4, digest(ieee, cfg));
    both(both(b, c), ends(rec, at, 8))
}

// The answer and both buffers, of which the record has n and k bytes; its answers stand at `at`.
fn back_case(
    rec: &[u8],
    at: usize,
    ieee: &[u32; TABLE_ENTRIES],
    image: &[u8],
    bin: &mut [u8],
    n: usize,
    cfg: &mut [u8],
    k: usize,
) -> bool {
    let u = unbuild_in(image, bin, n, cfg, k);
    let told = same_unbuilding(rec, at, u);
    let written = same_buffers(rec, after(at, 13), ieee, front(bin, n), front(cfg, k));
    both(told, written)
}

pub fn back_agrees(
    rec: &[u8],
    ieee: &[u32; TABLE_ENTRIES],
    image: &mut [u8],
    bin: &mut [u8],
    cfg: &mut [u8],
) -> bool {
    let f = take_bytes(rec, 4, image);
    let b = take_buffer(rec, f.next, bin);
    let c = take_buffer(rec, b.next, cfg);
    back_case(rec, c.next, ieee, front(image, f.n), bin, b.n, cfg, c.n)
}

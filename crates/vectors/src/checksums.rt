// The three checksums: 001's own twelve vectors, and a case of the family sums.
use basics::both;
use cases::fill::take_bytes;
use cases::record::{ends, front, has8, has32};
use cases::tally::{Tally, counted, nothing};

fn three(t: Tally, s: &[u8], dow: u8, c324: u32, ieee: u32) -> Tally {
    let a = counted(t, sums::dowcrc(s) == dow);
    let b = counted(a, sums::crc324(s) == c324);
    counted(b, sums::crc32(s) == ieee)
}

// Four inputs, each with its three sums (001, Test vectors).
pub fn vectors() -> Tally {
    let up = b"\x00\x01\x02\x03\x04\x05\x06\x07\x08\x09\x0A\x0B\x0C\x0D\x0E\x0F";
    let a = three(nothing(), up, 0x00, 0x9BB9_9201, 0xCECE_E288);
    let b = three(a, b"\x4A\x5A\x6A\x7A", 0xB8, 0x02CB_247E, 0x9B04_D72C);
    let c = three(b, &[0; 8], 0x00, 0x0000_0000, 0x6522_DF69);
    three(c, &[0xFF; 8], 0x84, 0xC44F_F94D, 0x2144_DF1C)
}

// Some bytes, and their three sums.
fn same_sums(rec: &[u8], at: usize, s: &[u8]) -> bool {
    let dow = has8(rec, at, 0, sums::dowcrc(s) as usize);
    let c324 = has32(rec, at, 1, sums::crc324(s) as usize);
    let ieee = has32(rec, at, 5, sums::crc32(s) as usize);
    both(both(dow, c324), both(ieee, ends(rec, at, 9)))
}

pub fn sums_agree(rec: &[u8], room: &mut [u8]) -> bool {
    let f = take_bytes(rec, 4, room);
    same_sums(rec, f.next, front(room, f.n))
}

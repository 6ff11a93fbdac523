// A hunk's words as they are written: the address, the cuts, and each cut as a data block in its smallest form
// (001, "Block Type 0x02: Data Hunk"; 02, W-207).
ghost use Rattle.std.specs.Prelude.{◌+◌, ◌≤◌, ◌%◌, ◌^◌, ◌++◌, ◌≡◌, length};
ghost use Rattle.basics.specs.Bytes.{le16, le24};
ghost use Rattle.basics.specs.Lists.{joined};
ghost use Rattle.places.specs.Limits.{paragraph_size};
ghost use Rattle.hunk.specs.Forms.{most_for, body_for, but_last, last_of, data_in};
ghost use Rattle.hunk.specs.Smallest.{data_of};
ghost use Rattle.hunk.specs.Cuts.{cuts_of};

use crate::Form;
use crate::bodies::put_body;
use crate::choice::form_for;
use crate::forms::{size_of, start_of};
use places::Locutus;

// The most words of a data block.
const DATA_WORDS: usize = 62;

// The low 24 bits of an address, into three bytes.
pub(crate) fn put_address(out: &mut [u8], at: Locutus)
    requires { length out.old ≡ 3 }
    ensures { out.new ≡ le24 (at.0 % 2 ^ 24) }
{
    out.copy_from_slice(&at.0.to_le_bytes()[..3]);
}

// The last word of a data block, as 16 bits.
fn put_last(out: &mut [u8], w: u16)
    requires { length out.old ≡ 2 }
    ensures { out.new ≡ le16 w }
{
    out.copy_from_slice(&w.to_le_bytes());
}

// What stands behind a start byte: the words before the last in a form, and the last.
fn put_behind(out: &mut [u8], words: &[u16], f: Form)
    requires { (1 ≤ length words.now) × (length out.old ≡ length (body_for f (but_last words.now)) + 2) }
    ensures { out.new ≡ body_for f (but_last words.now) ++ le16 (last_of words.now) }
{
    let last = words.len() - 1;
    let end = out.len() - 2;
    put_body(&mut out[0..end], &words[..last], f);
    put_last(&mut out[end..], words[last]);
}

// A data block of these words in a form, into a part of just its size.
fn write_data(out: &mut [u8], words: &[u16], f: Form)
    requires { (1 ≤ length words.now) × (length words.now ≤ most_for f) × (length out.old ≡ length (data_in f words.now)) }
    ensures { out.new ≡ data_in f words.now }
{
    out[0] = start_of(f, words.len());
    put_behind(&mut out[1..], words, f);
}

// How many bytes the data blocks of all cuts have.
pub(crate) fn cuts_size(words: &[u16]) -> usize
    requires { length words.now ≤ paragraph_size }
    ensures { result ≡ length (joined data_of (cuts_of words.now)) }
{
    let mut long = 0;
    for cut in words.chunks(DATA_WORDS) {
        long += size_of(form_for(cut), cut.len());
    }
    long
}

// A data block for each cut, one after the other, into a part of just their size.
pub(crate) fn write_cuts(out: &mut [u8], words: &[u16])
    requires { length out.old ≡ length (joined data_of (cuts_of words.now)) }
    ensures { out.new ≡ joined data_of (cuts_of words.now) }
{
    let mut p = 0;
    for cut in words.chunks(DATA_WORDS) {
        let f = form_for(cut);
        let e = p + size_of(f, cut.len());
        write_data(&mut out[p..e], cut, f);
        p = e;
    }
}

// Names of files, on slices: which part names the folder, what the system takes for a name, and the name of a part file.
ghost use Rattle.std.specs.Prelude.{◌+◌, ◌*◌, ◌%◌, ◌≤◌, ◌≡◌, length, IfSome};
ghost use Rattle.basics.specs.Lists.{joined};
ghost use Rattle.files.specs.Counts.{IsPrefixLen};
ghost use Rattle.files.specs.Digits.{hex_digit_ascii as Digits·glyph};
ghost use Rattle.files.specs.Names.{hex_of, folder_of, is_name, part_of, part_length, part_in};

use crate::errors::{EILSEQ, EINVAL, ENAMETOOLONG, Errno};
use std::str;

// A name has fewer bytes than this, with room for the byte that ends it (POSIX: PATH_MAX).
pub const PATH_MAX: usize = 4096;

// What a part's name has behind its folder: seven bytes, and two for each of the twelve bytes of its tag.
const PART: usize = 31;

// How many bytes of a name name its folder, the last `/` with them.
pub fn folder(name: &[u8]) -> usize
    ensures { (result ≡ folder_of name.now) × IsPrefixLen result name.now }
{
    name.iter()
        .rposition(|byte| *byte == b'/')
        .map_or(0, |k| k + 1)
}

// Whether the system takes all of it for a name: it is short enough, and no byte of it is 0.
pub fn is_name(name: &[u8]) -> bool
    ensures { result ≡ is_name name.now }
{
    name.len() < PATH_MAX && !name.contains(&0)
}

// A name as the library takes it, which is text; or the system's number for what is no name, or no text.
pub fn path_of(name: &[u8]) -> Result<&str, Errno> {
    if PATH_MAX <= name.len() {
        return Err(ENAMETOOLONG);
    }
    if !is_name(name) {
        return Err(EINVAL);
    }
    str::from_utf8(name).map_err(|_| EILSEQ)
}

// The hexadecimal digit of a number's lowest four bits.
fn glyph(x: u8) -> u8
    ensures { result ≡ Digits·glyph (x % 16) }
{
    let d = x % 16;
    if d < 10 { 48 + d } else { 87 + d }
}

// Bytes as hexadecimal digits, into a part of just their size.
fn put_hex(out: &mut [u8], tag: &[u8])
    requires { length out.old ≡ 2 * length tag.now }
    ensures { out.new ≡ joined hex_of tag.now }
{
    for i in 0..tag.len() {
        out[2 * i] = glyph(tag[i] / 16);
        out[2 * i + 1] = glyph(tag[i]);
    }
}

// A part's name, into a part of a buffer of just its size.
fn put_part(out: &mut [u8], name: &[u8], k: usize, tag: &[u8; 12])
    requires { (k ≡ folder_of name.now) × (k ≤ length name.now) × (length out.old ≡ k + 31) }
    ensures { out.new ≡ part_of name.now tag.now }
{
    let a = k + 7;
    let e = k + PART;
    out[..k].copy_from_slice(&name[..k]);
    out[k..a].copy_from_slice(b".luigi-");
    put_hex(&mut out[a..e], tag);
}

// The name of a part file, in the folder of the file that it is to become, at the front of a buffer; answers its length, and
// None where it does not fit.
pub fn part_name(name: &[u8], tag: &[u8; 12], out: &mut [u8]) -> Option<usize>
    ensures length { result ≡ part_length name.now (length out.old) }
    ensures name { out.new ≡ part_in name.now tag.now out.old }
    ensures front { IfSome result (λ n. IsPrefixLen n out.new) }
{
    let k = folder(name);
    if out.len() < k || out.len() - k < PART {
        return None;
    }
    let e = k + PART;
    put_part(&mut out[..e], name, k, tag);
    Some(e)
}

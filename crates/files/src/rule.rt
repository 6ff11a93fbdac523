// The rule of the floor: what a program may move a whole file over.
ghost use Rattle.std.specs.Prelude.{◌/◌, ◌%◌, ◌≡◌};
ghost use Rattle.files.specs.Rule.{kind_of, same_file, is_input, verdict_of};

use crate::errors::{ENOENT, Errno, Why};
use crate::sight::Seen;

// The kinds of a file that the rule tells apart, as the upper bits of a mode have them.
const REGULAR: u32 = 8;

const LINK: u32 = 10;

pub fn kind_of(mode: u32) -> u32
    ensures { result ≡ kind_of mode }
{
    mode / 4096 % 16
}

// Whether two sights are of one file: one number on one device.
pub fn same_file(a: Seen, b: Seen) -> bool
    ensures { result ≡ same_file a b }
{
    a.device == b.device && a.node == b.node
}

// Whether it is one of the files that were read.
pub fn is_input(seen: Seen, inputs: &[Seen]) -> bool
    ensures { result ≡ is_input seen inputs.now }
{
    inputs.iter().any(|input| same_file(seen, *input))
}

// Whether a file may be moved over what was seen under its name, and why not. A name that nothing has is free.
pub fn verdict(seen: Result<Seen, Errno>, inputs: &[Seen]) -> Result<(), Why>
    ensures { result ≡ verdict_of seen inputs.now }
{
    let seen = match seen {
        Ok(seen) => seen,
        Err(error) if error == ENOENT => return Ok(()),
        Err(_) => return Err(Why::Look),
    };
    match kind_of(seen.mode) {
        LINK => Err(Why::Link),
        REGULAR if is_input(seen, inputs) => Err(Why::Input),
        REGULAR => Ok(()),
        _ => Err(Why::Kind),
    }
}

// Goes back from an image to its BIN and its CFG: the image's name and the two to write are the arguments. Prints what the desk reads:
// `result=written` with the bytes of both, `result=refused` with number and place, or `result=stopped` with the file and the reason.
#![tactic(auto)]

use files::{Argument, Failure, Seen};
use places::{BIN_LIMIT, CFG_LIMIT, IMAGE_LIMIT};
use std::fmt;
use unbuild::Unbuilding;

const IMAGE: Argument = Argument {
    place: 1,
    word: "IMAGE",
};

const BIN: Argument = Argument {
    place: 2,
    word: "BIN",
};

const CFG: Argument = Argument {
    place: 3,
    word: "CFG",
};

// The bytes of a BIN and of a CFG that were written.
#[derive(Clone, Copy)]
struct Written {
    bin: usize,
    cfg: usize,
}

impl fmt::Display for Written {
    fn fmt<W: fmt::Write>(&self, f: &mut fmt::Formatter<W>) -> fmt::Result {
        let Written { bin, cfg } = *self;
        write!(f, "result=written\nbin={bin}\ncfg={cfg}\n")
    }
}

// Goes back, and writes both files.
fn unpress(rt: &HostRuntime, image: &[u8], input: Seen) -> Result<Written, Failure> {
    let mut bin: [u8; BIN_LIMIT] = files::room(0);
    let mut cfg: [u8; CFG_LIMIT] = files::room(0);
    let Unbuilding {
        refusal,
        bin: n,
        cfg: m,
    } = unbuild::unbuild(image, &mut bin, &mut cfg);
    if refusal.number != 0 {
        return Err(Failure::Refused(refusal));
    }
    // Both lie in their buffers: unbuild would have refused with 29.
    let n = n.min(BIN_LIMIT);
    let m = m.min(CFG_LIMIT);
    files::write_arguments(rt, BIN, &bin[..n], CFG, &cfg[..m], input)?;
    Ok(Written { bin: n, cfg: m })
}

// Reads the image into room for one byte more than it may have, so that a longer file is seen to be longer.
fn unpress_named(rt: &HostRuntime) -> Result<Written, Failure> {
    let mut file: [u8; IMAGE_LIMIT + 1] = files::room(0);
    let image = files::read_argument(rt, IMAGE, &mut file)?;
    unpress(rt, &file[..image.n], image.seen)
}

fn main(rt: HostRuntime) {
    files::answer(&rt, unpress_named(&rt));
}

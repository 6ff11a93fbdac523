// Presses a title: its BIN, its CFG and the image's name are the arguments, and its label file where there is a fourth. Prints what
// the desk reads: `result=built` with the image's length and the words of RAM that it needs, `result=refused` with number and place,
// or `result=stopped` with the file and the reason.
#![tactic(auto)]

use basics::Refusal;
use blocks::PAYLOAD_LIMIT;
use files::{Argument, Broken, Failure, Seen, Stopped};
use places::{BIN_LIMIT, CFG_LIMIT, IMAGE_LIMIT};
use std::fmt;

const BIN: Argument = Argument {
    place: 1,
    word: "BIN",
};

const CFG: Argument = Argument {
    place: 2,
    word: "CFG",
};

const OUT: Argument = Argument {
    place: 3,
    word: "OUT",
};

const LABEL: Argument = Argument {
    place: 4,
    word: "LABEL",
};

// An image that was built and written: its length, and the words of RAM that it needs.
#[derive(Clone, Copy)]
struct Built {
    length: usize,
    needed: u32,
}

impl fmt::Display for Built {
    fn fmt<W: fmt::Write>(&self, f: &mut fmt::Formatter<W>) -> fmt::Result {
        let Built { length, needed } = *self;
        write!(f, "result=built\nlength={length}\nneeded={needed}\n")
    }
}

// Why there is no image, and for refusal 27 the earlier line that collides with the one at its place.
#[derive(Clone, Copy)]
struct Unbuilt {
    failure: Failure,
    with: Option<u32>,
}

impl From<Stopped> for Unbuilt {
    fn from(stopped: Stopped) -> Unbuilt {
        Unbuilt {
            failure: Failure::Stopped(stopped),
            with: None,
        }
    }
}

impl From<Broken<Stopped>> for Unbuilt {
    fn from(broken: Broken<Stopped>) -> Unbuilt {
        Unbuilt::from(broken.error)
    }
}

impl fmt::Display for Unbuilt {
    fn fmt<W: fmt::Write>(&self, f: &mut fmt::Formatter<W>) -> fmt::Result {
        let failure = self.failure;
        write!(f, "{failure}")?;
        match self.with {
            Some(line) => write!(f, "with={line}\n"),
            None => Ok(()),
        }
    }
}

// The earlier line with which the one that 27 names collides: the rules are asked.
fn rival_of(bin: &[u8], cfg: &[u8]) -> Option<u32> {
    let n = bin.len();
    if BIN_LIMIT < n {
        return None;
    }
    let lines = cfg::read_cfg(cfg).ok()?;
    rules::collides_with((n / 2) as u32, lines.entries())
}

fn refused(refusal: Refusal, bin: &[u8], cfg: &[u8]) -> Unbuilt {
    Unbuilt {
        failure: Failure::Refused(refusal),
        with: if refusal.number == 27 {
            Some(rival_of(bin, cfg).unwrap_or(0))
        } else {
            None
        },
    }
}

// Builds the image and writes it; with no label file the label is empty.
fn press(
    rt: &HostRuntime,
    bin: &[u8],
    cfg: &[u8],
    label: &[u8],
    inputs: &[Seen],
) -> Result<Built, Unbuilt> {
    let mut out: [u8; IMAGE_LIMIT] = files::room(0);
    let build::Built { length, needed } = match build::build(bin, cfg, label, &mut out) {
        Ok(built) => built,
        Err(declined) => return Err(refused(declined.refusal, bin, cfg)),
    };
    // The image lies in the buffer: build would have refused with 29.
    let image = &out[..length.min(IMAGE_LIMIT)];
    files::write_argument(rt, OUT, image, inputs)?;
    Ok(Built { length, needed })
}

// Reads the files that are named, each into room for one byte more than it may have, so that a longer one is seen to be longer.
fn press_named(rt: &HostRuntime) -> Result<Built, Unbuilt> {
    let mut bin: [u8; BIN_LIMIT + 1] = files::room(0);
    let mut cfg: [u8; CFG_LIMIT + 1] = files::room(0);
    let mut label: [u8; PAYLOAD_LIMIT + 1] = files::room(0);
    let b = files::read_argument(rt, BIN, &mut bin)?;
    let c = files::read_argument(rt, CFG, &mut cfg)?;
    let bin = &bin[..b.n];
    let cfg = &cfg[..c.n];
    match files::read_given(rt, LABEL, &mut label)? {
        Some(l) => press(rt, bin, cfg, &label[..l.n], &[b.seen, c.seen, l.seen]),
        None => press(rt, bin, cfg, &[], &[b.seen, c.seen]),
    }
}

fn main(rt: HostRuntime) {
    files::answer(&rt, press_named(&rt));
}

// The program: reads an image from standard input, loads it into a RAM of zeros, and prints what the load did.
use crate::Counts;
use files::Failure;
use places::{CARD_LIMIT, CARD_WORDS};
use std::fmt;

impl fmt::Display for Counts {
    fn fmt<W: fmt::Write>(&self, f: &mut fmt::Formatter<W>) -> fmt::Result {
        let Counts { blocks, words } = *self;
        write!(f, "result=loaded\nblocks={blocks}\nwords={words}\n")
    }
}

// There is room for one byte more than the card takes: a longer file fills it, however long it is.
fn load(rt: &HostRuntime) -> Result<Counts, Failure> {
    let mut file: [u8; CARD_LIMIT + 1] = files::room(0);
    let mut ram: [u16; CARD_WORDS] = files::room(0);
    let n = files::stop_of(files::read_all(&mut rt.stdin(), &mut file)).map_err(|broken| broken.of(
        "IMAGE",
    ))?;
    Ok(crate::answer(&file[..n], &mut ram)?)
}

pub fn card(rt: &HostRuntime) {
    files::answer(rt, load(rt));
}

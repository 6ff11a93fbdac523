// Salvages a damaged image: its name and that of the file to write are the arguments. Prints `kept=`, `dropped=` and `stopped=`, then
// `drop=` with the place of each block left out; a refusal as the card does; or `result=stopped` with the file and the reason.
#![tactic(auto)]

use files::{Argument, Failure};
use places::CARD_LIMIT;
use recovery::Salvaged;
use std::io;

const IMAGE: Argument = Argument {
    place: 1,
    word: "IMAGE",
};

const OUT: Argument = Argument {
    place: 2,
    word: "OUT",
};

// Room for one byte more than the card takes: a longer file fills it, however long it is. And a salvaged image has at most one byte more
// than the image.
const FILE_ROOM: usize = CARD_LIMIT + 1;

// Room for the places of all blocks that such a file can lose: each has eight bytes at least.
const DROPS_ROOM: usize = 3072;

fn show(rt: &HostRuntime, salvaged: Salvaged, drops: &[usize]) -> io::Result<()> {
    let Salvaged { kept, dropped, .. } = salvaged;
    println!(rt; "kept={kept}\ndropped={dropped}")?;
    match salvaged.stopped {
        None => println!(rt; "stopped=none")?,
        Some(place) => println!(rt; "stopped={place}")?,
    }
    for place in drops {
        println!(rt; "drop={place}")?;
    }
    Ok(())
}

// Salvages the image, writes what is left of it, and shows what is lost.
fn salvage(rt: &HostRuntime) -> Result<(), Failure> {
    let mut file: [u8; FILE_ROOM] = files::room(0);
    let mut out: [u8; FILE_ROOM] = files::room(0);
    let mut places: [usize; DROPS_ROOM] = files::room(0);
    let read = files::read_argument(rt, IMAGE, &mut file)?;
    let image = &file[..read.n];
    let salvaged = recovery::answer(image, &mut out)?;
    // What was salvaged lies in the buffer: recovery would have refused with 29. And the places have room for all.
    let n = salvaged.length.min(FILE_ROOM);
    files::write_argument(rt, OUT, &out[..n], &[read.seen])?;
    let drops = recovery::drops(image, &mut places).min(DROPS_ROOM);
    let _ = show(rt, salvaged, &places[..drops]);
    Ok(())
}

fn main(rt: HostRuntime) {
    if let Err(failure) = salvage(&rt) {
        let _ = rt.print(failure);
    }
}

// Runs a list of bus accesses on an image. The image, the list and, where one is given, a limit on lines are the arguments. Prints what the bench reads:
// `word=` with four hex digits, or silence, for each read that was run, then `lines=`; `result=refused` with number and place, where the load or the run
// refuses; or `result=stopped` with the file and the reason.
#![tactic(auto)]

ghost use Rattle.std.specs.Prelude.{IfOk};
ghost use Rattle.files.specs.Counts.{IsPrefixLen};

use files::{Argument, Failure, Reading, Stop, Stopped, Why};
use std::env::FillError;
use std::io;
use std::rt::Env;

const IMAGE: Argument = Argument {
    place: 1,
    word: "IMAGE",
};

const LIST: Argument = Argument {
    place: 2,
    word: "LIST",
};

const LIMIT: Argument = Argument {
    place: 3,
    word: "LIMIT",
};

// The most bytes of a list.
const LIST_LIMIT: usize = 4194304;

// Room for the answers of any list: a read takes 15 bytes with the end of its line.
const ANSWERS: usize = 279620;

// The number that decimal digits say, at most nine of them behind any zeros.
fn limit_of(text: &[u8]) -> Option<usize> {
    if text.is_empty() {
        return None;
    }
    let mut n: usize = 0;
    for b in text {
        if !b.is_ascii_digit() || 99999999 < n {
            return None;
        }
        n = n * 10 + usize::from(*b - b'0');
    }
    Some(n)
}

// The limit that is given; where there is none, LIST_LIMIT, which no list exceeds.
fn given_limit(rt: &HostRuntime) -> Result<usize, Stopped> {
    let mut text = [0; 32];
    let limit = match rt.arg(LIMIT.place, &mut text) {
        Ok(k) => limit_of(&text[..k]),
        Err(FillError::NotPresent) => Some(LIST_LIMIT),
        Err(FillError::TooLong) => None,
    };
    limit.ok_or(Stop::by_rule(Why::Number).of(LIMIT.word))
}

// Reads the list, of which room for one byte more tells a longer one.
fn read_list(rt: &HostRuntime, file: &mut [u8]) -> Result<Reading, Stopped>
    ensures { IfOk result (λ list. IsPrefixLen list.n file.new) }
{
    let list = files::read_argument(rt, LIST, file)?;
    if LIST_LIMIT < list.n {
        return Err(Stop::by_rule(Why::Long).of(LIST.word));
    }
    Ok(list)
}

fn show(rt: &HostRuntime, answers: &[u32], lines: usize) -> io::Result<()> {
    for n in answers {
        if *n == cart::SILENCE {
            println!(rt; "word=silence")?;
        } else {
            println!(rt; "word={:04X}", n % 0x10000)?;
        }
    }
    println!(rt; "lines={lines}")
}

// Loads the image, with the flash that it asks for, and runs the list on it. The image stands in the list's room first: once it is loaded
// it is not asked again.
fn play(
    rt: &HostRuntime,
    file: &mut [u8],
    ram: &mut [u16],
    flash: &mut [u16],
    answers: &mut [u32],
) -> Result<(), Failure> {
    let image = files::read_argument(rt, IMAGE, file)?;
    let f = lending::flash_words(&file[..image.n], flash.len());
    let flash = &mut flash[..f];
    let loaded = load::load(&file[..image.n], ram, flash)?;
    let list = read_list(rt, file)?;
    let limit = given_limit(rt)?;
    let list = &file[..list.n];
    let ran = accesses::run(list, limit, loaded.cartridge, ram, flash, answers);
    if ran.refusal.number != 0 {
        return Err(Failure::Refused(ran.refusal));
    }
    // The answers lie in the buffer: accesses would have refused with 29.
    let n = ran.length.min(answers.len());
    let _ = show(rt, &answers[..n], ran.lines);
    Ok(())
}

fn main(rt: HostRuntime) {
    let mut file: [u8; LIST_LIMIT + 1] = files::room(0);
    let mut answers: [u32; ANSWERS] = files::room(0);
    let mut ram = lending::blank_ram();
    let mut flash = lending::erased_flash();
    if let Err(failure) = play(&rt, &mut file, &mut ram, &mut flash, &mut answers) {
        let _ = rt.print(failure);
    }
}

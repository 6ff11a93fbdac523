// What goes wrong: the system's number for it, why a program stopped, and what the desk reads of it.
ghost use Rattle.std.specs.Prelude.{◌≡◌, IfOk, Ok};

use basics::{Declined, Refusal};
use std::env::FillError;
use std::{fmt, io};

// The system's number for a call that failed, without the sign that C gives it.
#[derive(Clone, Copy, PartialEq, Eq)]
pub struct Errno(pub u32);

// The system's numbers that the desk names.
pub const ENOENT: Errno = Errno(2);

pub const EEXIST: Errno = Errno(17);

pub const EINVAL: Errno = Errno(22);

pub const ETXTBSY: Errno = Errno(26);

const EIO: Errno = Errno(5);

pub const ENAMETOOLONG: Errno = Errno(36);

// A name that is no text in UTF-8.
pub const EILSEQ: Errno = Errno(84);

impl From<io::Error> for Errno {
    // 0 is no number of a failure, and the library's own errors have none.
    fn from(e: io::Error) -> Errno {
        match e.raw_os_error() {
            Some(number) if 0 < number => Errno(number.unsigned_abs()),
            _ => EIO,
        }
    }
}

impl From<FillError> for Errno {
    fn from(e: FillError) -> Errno {
        match e {
            FillError::NotPresent => EINVAL,
            FillError::TooLong => ENAMETOOLONG,
        }
    }
}

// Why a program stopped.
#[derive(Clone, Copy, PartialEq, Eq)]
pub enum Why {
    Argument,
    Closed,
    Open,
    Read,
    Look,
    Link,
    Kind,
    Input,
    Protected,
    Create,
    Mode,
    Write,
    Sync,
    Move,
    Long,
    Number,
}

impl fmt::Display for Why {
    fn fmt<W: fmt::Write>(&self, f: &mut fmt::Formatter<W>) -> fmt::Result {
        f.write_str(match self {
            Why::Argument => "argument",
            Why::Closed => "closed",
            Why::Open => "open",
            Why::Read => "read",
            Why::Look => "look",
            Why::Link => "link",
            Why::Kind => "kind",
            Why::Input => "input",
            Why::Protected => "protected",
            Why::Create => "create",
            Why::Mode => "mode",
            Why::Write => "write",
            Why::Sync => "sync",
            Why::Move => "move",
            Why::Long => "long",
            Why::Number => "number",
        })
    }
}

// A stop: why, and the system's number for it where it has one.
#[derive(Clone, Copy, PartialEq, Eq)]
pub struct Stop {
    pub why: Why,
    pub error: Option<Errno>,
}

impl Stop {
    // A stop by the desk's own rule, which the system has no number for.
    pub fn by_rule(why: Why) -> Stop {
        Stop { why, error: None }
    }

    // The stop of a program at one of its files, which the desk knows by a word.
    pub fn of(self, file: &'static str) -> Stopped {
        Stopped { file, stop: self }
    }
}

// What failed is said to stop a program, and why.
pub trait At<T> {
    fn at(self, why: Why) -> Result<T, Stop>;
}

impl<T, E: Into<Errno>> At<T> for Result<T, E> {
    fn at(self, why: Why) -> Result<T, Stop>
        ensures { IfOk result (λ value. self ≡ Ok value) }
    {
        match self {
            Ok(value) => Ok(value),
            Err(error) => Err(Stop {
                why,
                error: Some(error.into()),
            }),
        }
    }
}

// What stopped a program: which of its files, and why. The desk's command makes a sentence of it.
#[derive(Clone, Copy)]
pub struct Stopped {
    pub file: &'static str,
    pub stop: Stop,
}

impl fmt::Display for Stopped {
    fn fmt<W: fmt::Write>(&self, f: &mut fmt::Formatter<W>) -> fmt::Result {
        let Stopped { file, stop } = *self;
        let error = stop.error.map_or(0, |error| error.0);
        let why = stop.why;
        write!(f, "result=stopped\nfile={file}\nwhy={why}\nerror={error}\n")
    }
}

// Why a program has nothing to give: it was stopped, or refuses.
#[derive(Clone, Copy)]
pub enum Failure {
    Stopped(Stopped),
    Refused(Refusal),
}

impl From<Stopped> for Failure {
    fn from(stopped: Stopped) -> Failure {
        Failure::Stopped(stopped)
    }
}

impl From<Refusal> for Failure {
    fn from(refusal: Refusal) -> Failure {
        Failure::Refused(refusal)
    }
}

impl From<Declined> for Failure {
    fn from(declined: Declined) -> Failure {
        Failure::Refused(declined.refusal)
    }
}

impl fmt::Display for Failure {
    fn fmt<W: fmt::Write>(&self, f: &mut fmt::Formatter<W>) -> fmt::Result {
        match *self {
            Failure::Stopped(stopped) => write!(f, "{stopped}"),
            Failure::Refused(Refusal { number, place }) => {
                write!(f, "result=refused\ncode={number}\nat={place}\n")
            }
        }
    }
}

// Reading a file whole: its end is told apart from an error, and a file that is longer than the buffer apart from both.
ghost use Rattle.std.specs.Prelude.{◌+◌, ◌<◌, ◌≤◌, ◌≡◌, length, Ok, Err, IfOk, IfErr, IfSome};
ghost use Rattle.files.specs.Counts.{IsPrefixLen};
ghost use Rattle.files.specs.Reads.{meaning_of, count_in, ending_of};
ghost use Rattle.files.specs.Stops.{stop_of};

use crate::arguments::Argument;
use crate::errors::{At, Errno, Failure, Stop, Stopped, Why};
use crate::names::PATH_MAX;
use crate::sight::Seen;
use crate::{names, sight};
use std::fs::File;
use std::io::Read;
use std::os::fd::AsRawFd;

// How the reading of a file that did not fail ended: the buffer has all of it, or more stands after a full buffer.
#[derive(Clone, Copy)]
pub enum Ending {
    Whole,
    Longer,
}

// What a reading to the end brought: how many bytes stand at the buffer's front, and how it ended.
#[derive(Clone, Copy)]
pub struct Taken {
    pub ending: Ending,
    pub n: usize,
}

// What was read of a file: how many bytes stand at the buffer's front, and which file it was. Of a longer one the buffer is full.
// It is a count, as std's `read` answers, and no slice, so that the caller may fill the buffer again.
#[derive(Clone, Copy)]
pub struct Reading {
    pub n: usize,
    pub seen: Seen,
}

// A reading that failed: why, and how many bytes stand at the buffer's front all the same.
#[derive(Clone, Copy)]
pub struct Broken<E> {
    pub error: E,
    pub n: usize,
}

impl Broken<Stop> {
    // The same failure, as the stop of a program at one of its files, which the desk knows by a word.
    pub fn of(self, file: &'static str) -> Broken<Stopped>
        ensures { result.n ≡ self.n }
    {
        Broken {
            error: self.error.of(file),
            n: self.n,
        }
    }
}

impl From<Broken<Stopped>> for Stopped {
    fn from(broken: Broken<Stopped>) -> Stopped {
        broken.error
    }
}

impl From<Broken<Stopped>> for Failure {
    fn from(broken: Broken<Stopped>) -> Failure {
        Failure::Stopped(broken.error)
    }
}

// Adds to a failure how many bytes the reading had brought by then.
trait After<T, E> {
    fn after(self, n: usize) -> Result<T, Broken<E>>;
}

impl<T, E> After<T, E> for Result<T, E> {
    fn after(self, n: usize) -> Result<T, Broken<E>>
        ensures { (IfOk result (λ value. self ≡ Ok value))
            × (IfErr result (λ broken. (self ≡ Err broken.error) × (broken.n ≡ n))) }
    {
        match self {
            Ok(value) => Ok(value),
            Err(error) => Err(Broken { error, n }),
        }
    }
}

// Room for N elements. Its length is known without counting them, which a proof about an array as long as a file must not do.
pub fn room<T: Copy, const N: usize>(blank: T) -> [T; N]
    ensures { N ≡ length result }
{
    [blank; N]
}

// What a read into so much room means by its answer: how many bytes it brought, or None, the end.
pub fn meaning(answer: Result<usize, Errno>, room: usize) -> Result<Option<usize>, Errno>
    ensures { (result ≡ meaning_of answer room) × (count_in result ≤ room) }
{
    match answer? {
        0 => Ok(None),
        k => Ok(Some(k.min(room))),
    }
}

// One read, to place n of a buffer and on.
fn read_from<R: Read>(source: &mut R, buf: &mut [u8], n: usize) -> Result<Option<usize>, Errno>
    requires { n < length buf.old }
    ensures { IfOk result (λ brought. IfSome brought (λ k. (0 < k) × (n + k ≤ length buf.old))) }
{
    let room = buf.len() - n;
    meaning(source.read(&mut buf[n..]).map_err(Errno::from), room)
}

// What one more read says of a file that has filled its buffer: more stands after it, or the file is whole.
fn ending_of(more: Option<usize>) -> Ending
    ensures { result ≡ ending_of more }
{
    match more {
        Some(_) => Ending::Longer,
        None => Ending::Whole,
    }
}

// Reads to the end, or until the buffer is full and one read more has told whether the file is longer.
pub fn read_all<R: Read>(source: &mut R, buf: &mut [u8]) -> Result<Taken, Broken<Errno>>
    ensures { (IfOk result (λ taken. IsPrefixLen taken.n buf.new))
        × (IfErr result (λ broken. IsPrefixLen broken.n buf.new)) }
{
    let mut n = 0;
    while n < buf.len() {
        match read_from(source, buf, n).after(n)? {
            Some(k) => n += k,
            None => {
                return Ok(Taken {
                    ending: Ending::Whole,
                    n,
                });
            }
        }
    }
    let more = read_from(source, &mut [0], 0).after(n)?;
    Ok(Taken {
        ending: ending_of(more),
        n,
    })
}

// What a reading that ended so is to a program: one that failed stops it. A longer file does not, since its buffer has all that there is room for.
pub fn stop_of(ended: Result<Taken, Broken<Errno>>) -> Result<usize, Broken<Stop>>
    ensures { result ≡ stop_of ended }
{
    match ended {
        Ok(taken) => match taken.ending {
            Ending::Whole => Ok(taken.n),
            Ending::Longer => Ok(taken.n),
        },
        Err(broken) => Err(Broken {
            error: Stop {
                why: Why::Read,
                error: Some(broken.error),
            },
            n: broken.n,
        }),
    }
}

// What an open file reads, to its end, and which file it is.
fn read_open(file: &mut File, buf: &mut [u8]) -> Result<Reading, Broken<Stop>>
    ensures { (IfOk result (λ reading. IsPrefixLen reading.n buf.new))
        × (IfErr result (λ broken. IsPrefixLen broken.n buf.new)) }
{
    let seen = sight::open_file(file).at(Why::Look).after(0)?;
    let n = stop_of(read_all(file, buf))?;
    Ok(Reading { n, seen })
}

// Whether a file stands in for a standard stream that is closed: its descriptor is below 3, and what a program says would go into it.
pub fn stands_in(file: &File) -> bool {
    file.as_raw_fd() < 3
}

// Opens a file, or a folder, to read it.
pub fn open(rt: &HostRuntime, name: &[u8]) -> Result<File, Errno> {
    Ok(File::open(rt, names::path_of(name)?)?)
}

// The file of a name, at the front of a buffer.
pub fn read_file(rt: &HostRuntime, name: &[u8], buf: &mut [u8]) -> Result<Reading, Broken<Stop>>
    ensures { (IfOk result (λ reading. IsPrefixLen reading.n buf.new))
        × (IfErr result (λ broken. IsPrefixLen broken.n buf.new)) }
{
    let mut file = open(rt, name).at(Why::Open).after(0)?;
    if stands_in(&file) {
        return Err(Broken {
            error: Stop::by_rule(Why::Closed),
            n: 0,
        });
    }
    read_open(&mut file, buf)
}

// The file that an argument names.
pub fn read_argument(
    rt: &HostRuntime,
    argument: Argument,
    buf: &mut [u8],
) -> Result<Reading, Broken<Stopped>>
    ensures { (IfOk result (λ reading. IsPrefixLen reading.n buf.new))
        × (IfErr result (λ broken. IsPrefixLen broken.n buf.new)) }
{
    let mut name = [0; PATH_MAX];
    let k = argument.put(rt, &mut name).after(0)?;
    read_file(rt, &name[..k], buf).map_err(|broken| broken.of(argument.word))
}

// The file that an argument names, where it is given.
pub fn read_given(
    rt: &HostRuntime,
    argument: Argument,
    buf: &mut [u8],
) -> Result<Option<Reading>, Broken<Stopped>>
    ensures { (IfOk result (λ given. IfSome given (λ reading. IsPrefixLen reading.n buf.new)))
        × (IfErr result (λ broken. IsPrefixLen broken.n buf.new)) }
{
    if !argument.is_given(rt) {
        return Ok(None);
    }
    Ok(Some(read_argument(rt, argument, buf)?))
}

// Writing a file whole: beside its target, under a name that nobody else has, and moved into place when it is whole.
ghost use Rattle.std.specs.Prelude.{◌≡◌, IfOk};
ghost use Rattle.files.specs.Counts.{IsPrefixLen};

use crate::arguments::Argument;
use crate::errors::{At, EEXIST, EILSEQ, EINVAL, ENOENT, ETXTBSY, Errno, Stop, Stopped, Why};
use crate::names::PATH_MAX;
use crate::sight::Seen;
use crate::{names, reading, rule, sight};
use std::fs::{File, OpenOptions, Permissions};
use std::io::Write;
use std::os::unix::fs::{PermissionsExt, fchown};
use std::random::RandomSource;
use std::{fs, io, process};

// How many names are tried again before the folder is given up.
const TRIES: usize = 16;

// The bits of a mode that say who may do what.
const RIGHTS: u32 = 4096;

// A part file, open to be written, and how many bytes its name has.
#[derive(Drop)]
struct Made {
    file: File,
    n: usize,
}

// A tag that no other process has, and that this one has not had: its number, and eight bytes by chance. Where the system has
// no chance to give, the creation itself still tells a name that is taken.
fn tag(rt: &HostRuntime) -> [u8; 12] {
    let mut tag = [0; 12];
    tag[..4].copy_from_slice(&process::id(rt.process()).to_be_bytes());
    let _ = rt.fill_bytes(&mut tag[4..]);
    tag
}

// Opens a file that is not there yet, to write it.
fn create(rt: &HostRuntime, name: &[u8]) -> Result<File, Errno> {
    let path = names::path_of(name)?;
    Ok(
        OpenOptions::new()
            .write(true)
            .create_new(true)
            .open(rt, path)?,
    )
}

// Removes a part file, if it can be.
fn remove(rt: &HostRuntime, part: &[u8]) {
    if let Ok(path) = names::path_of(part) {
        let _ = fs::remove_file(rt, path);
    }
}

// Makes a part file, which fails where the name is taken, by a link too.
fn create_part(rt: &HostRuntime, name: &[u8], part: &mut [u8]) -> Result<Made, Stop>
    ensures { IfOk result (λ made. IsPrefixLen made.n part.new) }
{
    // The system has no file of an empty name.
    let n = names::part_name(name, &tag(rt), part)
        .ok_or(ENOENT)
        .at(Why::Create)?;
    let file = create(rt, &part[..n]).at(Why::Create)?;
    if reading::stands_in(&file) {
        drop(file);
        remove(rt, &part[..n]);
        return Err(Stop::by_rule(Why::Closed));
    }
    Ok(Made { file, n })
}

// Makes a part file under a name that nobody has.
fn create_beside(rt: &HostRuntime, name: &[u8], part: &mut [u8]) -> Result<Made, Stop>
    ensures { IfOk result (λ made. IsPrefixLen made.n part.new) }
{
    for _ in 0..TRIES {
        match create_part(rt, name, part) {
            Err(stop) if stop.error == Some(EEXIST) => {}
            made => return made,
        }
    }
    create_part(rt, name, part)
}

// Gives a new file the owner and the group of the old one, as far as the system lets it.
fn keep_owner(file: &File, old: Seen) {
    if fchown(file, Some(old.owner), Some(old.group)).is_err() {
        let _ = fchown(file, None, Some(old.group));
    }
}

// Gives a new file the owner and the mode of the old one.
fn keep_mode(file: &File, old: Seen) -> io::Result<()> {
    let new = sight::open_file(file);
    if !new.is_ok_and(|new| (new.owner, new.group) == (old.owner, old.group)) {
        keep_owner(file, old);
    }
    if new.is_ok_and(|new| new.mode == old.mode) {
        return Ok(());
    }
    file.set_permissions(Permissions::from_mode(old.mode % RIGHTS))
}

// Whether what was written has reached the disk; a file system that has no such call is let be.
fn sync(file: &File) -> Result<(), Stop> {
    match file.sync_all().at(Why::Sync) {
        Err(stop) if stop.error == Some(EINVAL) => Ok(()),
        synced => synced,
    }
}

// Fills the part file and closes it, whatever happens; the library loses an error of the close.
fn fill_and_close(mut file: File, bytes: &[u8], old: Option<Seen>) -> Result<(), Stop> {
    if let Some(old) = old {
        keep_mode(&file, old).at(Why::Mode)?;
    }
    file.write_all(bytes).at(Why::Write)?;
    sync(&file)
}

// Has the move itself reach the disk, where the folder can be opened. The file is whole in either case.
fn sync_folder(rt: &HostRuntime, folder: &[u8]) {
    if let Ok(folder) = reading::open(rt, folder) {
        let _ = folder.sync_all();
    }
}

fn settle(rt: &HostRuntime, name: &[u8]) {
    match names::folder(name) {
        0 => sync_folder(rt, b"."),
        k => sync_folder(rt, &name[..k]),
    }
}

// Why what stands there may not be written by this user: it is opened to be written at its end, and nothing is written. A program
// that runs cannot be opened so, and may be moved over.
fn protection(rt: &HostRuntime, name: &[u8]) -> Result<(), Errno> {
    let path = names::path_of(name).map_err(|_| EILSEQ)?;
    match OpenOptions::new().append(true).open(rt, path) {
        Ok(_) => Ok(()),
        Err(e) => match Errno::from(e) {
            ETXTBSY => Ok(()),
            error => Err(error),
        },
    }
}

// What stands under a name that a file may be moved over; None where nothing does.
fn replaced(rt: &HostRuntime, name: &[u8], inputs: &[Seen]) -> Result<Option<Seen>, Stop> {
    let old = sight::named_file(rt, name);
    rule::verdict(old, inputs).map_err(|why| Stop {
        why,
        error: old.err(),
    })?;
    if old.is_ok() {
        protection(rt, name).at(Why::Protected)?;
    }
    Ok(old.ok())
}

// Moves a file.
fn rename(rt: &HostRuntime, from: &[u8], to: &[u8]) -> Result<(), Errno> {
    let from = names::path_of(from)?;
    let to = names::path_of(to)?;
    Ok(fs::rename(rt, from, to)?)
}

// Moves a part file into place; where it cannot be, it is removed.
fn place(rt: &HostRuntime, part: &[u8], name: &[u8]) -> Result<(), Stop> {
    rename(rt, part, name)
        .inspect_err(|_| remove(rt, part))
        .at(Why::Move)?;
    settle(rt, name);
    Ok(())
}

// Writes a part file whole, beside its target; answers how many bytes its name has.
fn write_part(
    rt: &HostRuntime,
    name: &[u8],
    bytes: &[u8],
    inputs: &[Seen],
    part: &mut [u8],
) -> Result<usize, Stop>
    ensures { IfOk result (λ n. IsPrefixLen n part.new) }
{
    let old = replaced(rt, name, inputs)?;
    let Made { file, n } = create_beside(rt, name, part)?;
    fill_and_close(file, bytes, old).inspect_err(|_| remove(rt, &part[..n]))?;
    Ok(n)
}

// Writes a file whole. Whatever stops it, what stood there stays, whole.
pub fn write_file(
    rt: &HostRuntime,
    name: &[u8],
    bytes: &[u8],
    inputs: &[Seen],
) -> Result<(), Stop> {
    let mut part = [0; PATH_MAX];
    let n = write_part(rt, name, bytes, inputs, &mut part)?;
    place(rt, &part[..n], name)
}

// The file that an argument names.
pub fn write_argument(
    rt: &HostRuntime,
    argument: Argument,
    bytes: &[u8],
    inputs: &[Seen],
) -> Result<(), Stopped> {
    let mut name = [0; PATH_MAX];
    let k = argument.put(rt, &mut name)?;
    write_file(rt, &name[..k], bytes, inputs).map_err(|stop| stop.of(argument.word))
}

// A file of two that are to be written: its name, its bytes, and the word by which the desk knows it.
#[derive(Clone, Copy)]
struct Target<'a> {
    word: &'static str,
    name: &'a [u8],
    bytes: &'a [u8],
}

impl<'a> Target<'a> {
    fn write_part(
        self,
        rt: &HostRuntime,
        inputs: &[Seen],
        part: &mut [u8],
    ) -> Result<usize, Stopped>
        ensures { IfOk result (λ n. IsPrefixLen n part.new) }
    {
        write_part(rt, self.name, self.bytes, inputs, part).map_err(|stop| stop.of(self.word))
    }

    fn place(self, rt: &HostRuntime, part: &[u8]) -> Result<(), Stopped> {
        place(rt, part, self.name).map_err(|stop| stop.of(self.word))
    }
}

// Writes the second part file, whose target may be neither the input nor the first target.
fn write_second(
    rt: &HostRuntime,
    first: Target<'_>,
    second: Target<'_>,
    input: Seen,
    part: &mut [u8],
) -> Result<usize, Stopped>
    ensures { IfOk result (λ n. IsPrefixLen n part.new) }
{
    match sight::named_file(rt, first.name) {
        Ok(old) => second.write_part(rt, &[input, old], part),
        Err(_) => second.write_part(rt, &[input], part),
    }
}

// Two files, each moved into place when both are whole. Where the first cannot be, the second's part is removed.
fn write_files(
    rt: &HostRuntime,
    first: Target<'_>,
    second: Target<'_>,
    input: Seen,
) -> Result<(), Stopped> {
    let mut part = [0; PATH_MAX];
    let mut other = [0; PATH_MAX];
    let n = first.write_part(rt, &[input], &mut part)?;
    let m = write_second(rt, first, second, input, &mut other).inspect_err(|_| remove(
        rt,
        &part[..n],
    ))?;
    first
        .place(rt, &part[..n])
        .inspect_err(|_| remove(rt, &other[..m]))?;
    second.place(rt, &other[..m])
}

// The files that two arguments name; what is written is neither the input nor the other file.
pub fn write_arguments(
    rt: &HostRuntime,
    first: Argument,
    a: &[u8],
    second: Argument,
    b: &[u8],
    input: Seen,
) -> Result<(), Stopped> {
    let mut name = [0; PATH_MAX];
    let mut other = [0; PATH_MAX];
    let k = first.put(rt, &mut name)?;
    let l = second.put(rt, &mut other)?;
    write_files(
        rt,
        Target {
            word: first.word,
            name: &name[..k],
            bytes: a,
        },
        Target {
            word: second.word,
            name: &other[..l],
            bytes: b,
        },
        input,
    )
}

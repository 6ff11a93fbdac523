// What the system tells of a file, by its name or of an open one.
use crate::errors::{ENAMETOOLONG, Errno};
use crate::names;
use std::fs;
use std::fs::{File, Metadata};
use std::os::unix::fs::MetadataExt;

// A file is known by its number and its device.
#[derive(Clone, Copy, PartialEq, Eq)]
pub struct Seen {
    pub device: u64,
    pub node: u64,
    pub mode: u32,
    pub owner: u32,
    pub group: u32,
}

impl From<Metadata> for Seen {
    fn from(told: Metadata) -> Seen {
        Seen {
            device: told.dev(),
            node: told.ino(),
            mode: told.mode(),
            owner: told.uid(),
            group: told.gid(),
        }
    }
}

pub fn open_file(file: &File) -> Result<Seen, Errno> {
    Ok(Seen::from(file.metadata()?))
}

// What stands under a name itself, a link too.
pub fn named_file(rt: &HostRuntime, name: &[u8]) -> Result<Seen, Errno> {
    if !names::is_name(name) {
        return Err(ENAMETOOLONG);
    }
    Ok(Seen::from(fs::symlink_metadata(rt, names::path_of(name)?)?))
}

// A family's file, NAME.vec, in the current folder.
use crate::fill::put;
use crate::record::front;

// How many bytes it has, and whether it was there and read to its end.
#[derive(Clone, Copy)]
pub struct FileRead {
    pub n: usize,
    pub whole: bool,
}

// `name` has the family's name, of k bytes; the rest of it is overwritten.
pub fn read_family(rt: &HostRuntime, name: &mut [u8], k: usize, file: &mut [u8]) -> FileRead {
    let end = put(name, k, b".vec");
    match files::read_file(rt, front(name, end), file) {
        Ok(read) => FileRead {
            n: read.n,
            whole: read.n != file.len(),
        },
        Err(broken) => FileRead {
            n: broken.n,
            whole: false,
        },
    }
}

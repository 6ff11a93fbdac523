// The program's arguments: the name of the program is argument 0.
ghost use Rattle.std.specs.Io.{WritesAtMost};

use crate::errors::{At, Stopped, Why};
use std::env::FillError;
use std::rt::Env;

// An argument that names a file: its place, and the word by which the desk knows the file.
#[derive(Clone, Copy)]
pub struct Argument {
    pub place: usize,
    pub word: &'static str,
}

impl Argument {
    // The argument at the front of a buffer; answers its length.
    pub fn put(self, rt: &HostRuntime, out: &mut [u8]) -> Result<usize, Stopped>
        ensures { WritesAtMost result out.new }
    {
        rt.arg(self.place, out)
            .at(Why::Argument)
            .map_err(|stop| stop.of(self.word))
    }

    // Whether it is given, however long it is.
    pub fn is_given(self, rt: &HostRuntime) -> bool {
        !matches!(rt.arg(self.place, &mut []), Err(FillError::NotPresent))
    }
}

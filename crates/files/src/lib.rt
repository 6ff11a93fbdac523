// What the desk's programs do with files: read one whole, write one whole beside its target and move it into place, and say
// what stopped them. Functions on slices and numbers promise equations; what the system does is tried by tests/files.sh.
#![tactic(auto)]

mod arguments;
mod errors;
mod names;
mod reading;
mod rule;
mod saying;
mod sight;
mod writing;

pub use arguments::Argument;
pub use errors::{At, Errno, Failure, Stop, Stopped, Why};
pub use names::{folder, is_name, part_name};
pub use reading::{
    Broken, Ending, Reading, Taken, meaning, read_all, read_argument, read_file, read_given, room,
    stop_of,
};
pub use rule::{is_input, kind_of, same_file, verdict};
pub use saying::answer;
pub use sight::Seen;
pub use writing::{write_argument, write_arguments, write_file};

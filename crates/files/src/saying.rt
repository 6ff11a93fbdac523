// What a program says on its standard output.
use std::fmt::Display;

// The answer of a program, or why it has none. Where that cannot be written, nobody is left to be told.
pub fn answer<T: Display + Drop, E: Display + Drop>(rt: &HostRuntime, answer: Result<T, E>) {
    let _ = match answer {
        Ok(answer) => rt.print(answer),
        Err(error) => rt.print(error),
    };
}

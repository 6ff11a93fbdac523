// Which line is behind each cell, a paragraph of a layer: the first of the lines that holds it, by its number from 1 on, and 0
// where there is none. As options the numbers would take twice the memory.
ghost use Rattle.std.specs.Prelude.{◌≤◌, ◌≡◌, length};
ghost use Rattle.places.specs.Limits.{line_limit};
ghost use Rattle.layout.specs.Code.Survey.{claimed, Cells};
ghost use Rattle.layout.specs.Code.Pour.{numbered};

use lines::{Entry, Line, layer_of};
use places::{CELLS, Console, LAYERS, PARAGRAPH_SIZE, PARAGRAPHS};

// The line of a number.
pub(crate) fn line_of(lines: &[Line], number: u8) -> Option<Line>
    requires { number ≤ length lines.now }
    ensures { result ≡ numbered lines.now number }
{
    if number == 0 {
        None
    } else {
        Some(lines[usize::from(number) - 1])
    }
}

// A line's number, on those cells of its layer that it holds and that are free.
fn claim(numbers: &mut [u8; CELLS], e: Entry, number: u8)
    ensures { numbers.new ≡ claimed e number numbers.old }
{
    let t = layer_of(e);
    if LAYERS <= t {
        return;
    }
    for p in 0..PARAGRAPHS {
        let i = PARAGRAPHS * t + p;
        if numbers[i] == 0 && lines::holds(e, Console((PARAGRAPH_SIZE * p) as u16)) {
            numbers[i] = number;
        }
    }
}

pub(crate) fn cells_of(lines: &[Line]) -> [u8; CELLS]
    requires { length lines.now ≤ line_limit }
    ensures { Cells lines.now lines.now result }
{
    let mut numbers = [0u8; CELLS];
    for k in 0..lines.len() {
        claim(&mut numbers, lines[k].entry, (k + 1) as u8);
    }
    numbers
}

// What the layout asks of the lines: the line of each cell, the kind of each plain paragraph, the slots in use and their pages,
// the chapters with PAGE lines, and those whose flippable range is all plain ROM.
ghost use Rattle.std.specs.Prelude.{ℕ, ◌<◌, ◌≤◌, get_or};
ghost use Rattle.places.specs.Limits.{slots};

use places::{CELLS, CHAPTERS, PARAGRAPHS, SLOTS};

#[derive(Clone, Copy)]
pub(crate) struct Survey {
    pub cells: [u8; CELLS],
    pub kinds: [u8; PARAGRAPHS],
    pub used: [bool; SLOTS],
    pub paged: [bool; CHAPTERS],
    pub under: [bool; CHAPTERS],
    pub page: [u16; SLOTS],
    pub slot: [u16; SLOTS],
    pub pages: u16,
    ghost few: { pages ≤ slots },
    ghost small: { (s : ℕ) → s < slots → get_or page s 0 ≤ slots },
    ghost within: { (n : ℕ) → n < slots → get_or slot n 0 < slots },
}

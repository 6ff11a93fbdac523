// The survey of some lines, table by table.
ghost use Rattle.std.specs.Prelude.{◌/◌, ◌%◌, ◌<◌, ◌≤◌, ◌≡◌, length};
ghost use Rattle.basics.specs.Tables.{table};
ghost use Rattle.places.specs.Limits.{line_limit, chapters, layers, slots, paragraphs};
ghost use Rattle.lines.specs.Kinds.{kind_of};
ghost use Rattle.layout.specs.Code.Survey.{line_of, Few, used_in, paged_in, kind_in, under_in, Surveyed};

use crate::cells::{cells_of, line_of};
use crate::found::Survey;
use crate::pages::{Numbered, number};
use lines::{Line, kind_of};
use places::{CELLS, CHAPTER_PAGES, CHAPTER_PARAGRAPHS, CHAPTERS, LAYERS, PARAGRAPHS, SLOTS};
use std::array;

// Whether layer t of chapter x is in use.
fn is_used(numbers: &[u8; CELLS], x: usize, t: usize) -> bool
    requires { (x < chapters) × (t < layers) }
    ensures { result ≡ used_in numbers.now x t }
{
    for k in 0..CHAPTER_PARAGRAPHS {
        if numbers[PARAGRAPHS * t + (CHAPTER_PARAGRAPHS * x + k)] != 0 {
            return true;
        }
    }
    false
}

fn used_of(numbers: &[u8; CELLS]) -> [bool; SLOTS]
    ensures { result ≡ table slots (λ s. used_in numbers.now (s / layers) (s % layers)) }
{
    array::from_fn(|s| is_used(numbers, s / LAYERS, s % LAYERS))
}

// Whether chapter x has PAGE lines.
fn is_paged(used: &[bool; SLOTS], x: usize) -> bool
    requires { x < chapters }
    ensures { result ≡ paged_in used.now x }
{
    for y in 0..CHAPTER_PAGES {
        if used[LAYERS * x + (y + 1)] {
            return true;
        }
    }
    false
}

fn paged_of(used: &[bool; SLOTS]) -> [bool; CHAPTERS]
    ensures { result ≡ table chapters (paged_in used.now) }
{
    array::from_fn(|x| is_paged(used, x))
}

// The kind of the line of a number.
fn kind_at(lines: &[Line], number: u8) -> u8
    requires { number ≤ length lines.now }
    ensures { result ≡ kind_of (line_of lines.now number) }
{
    match line_of(lines, number) {
        Some(line) => kind_of(line.entry),
        None => 0,
    }
}

fn kinds_of(numbers: &[u8; CELLS], lines: &[Line]) -> [u8; PARAGRAPHS]
    requires { Few lines.now numbers.now }
    ensures { result ≡ table paragraphs (kind_in lines.now numbers.now) }
{
    array::from_fn(|p| kind_at(lines, numbers[p]))
}

// Whether plain ROM covers the flippable range of chapter x.
fn is_under(kinds: &[u8; PARAGRAPHS], x: usize) -> bool
    requires { x < chapters }
    ensures { result ≡ under_in kinds.now x }
{
    for k in switches::first_k(x)..CHAPTER_PARAGRAPHS {
        if kinds[CHAPTER_PARAGRAPHS * x + k] != 1 {
            return false;
        }
    }
    true
}

fn under_of(kinds: &[u8; PARAGRAPHS]) -> [bool; CHAPTERS]
    ensures { result ≡ table chapters (under_in kinds.now) }
{
    array::from_fn(|x| is_under(kinds, x))
}

pub(crate) fn survey_of(lines: &[Line]) -> Survey
    requires { length lines.now ≤ line_limit }
    ensures { Surveyed lines.now lines.now result }
{
    let cells = cells_of(lines);
    let kinds = kinds_of(&cells, lines);
    let used = used_of(&cells);
    let paged = paged_of(&used);
    let under = under_of(&kinds);
    let Numbered { page, slot, pages } = number(&used);
    Survey {
        cells,
        kinds,
        used,
        paged,
        under,
        page,
        slot,
        pages,
    }
}

// The map of an image, which is the argument: sixteen chapters of sixteen paragraphs with a sign for what shows there at power-on, the pages of
// each chapter that has some, then `words=`, `jlp=` and `flash=`. Or `result=refused` with number and place, where the load refuses; or
// `result=stopped` with the file and the reason.
#![tactic(auto)]

ghost use Rattle.std.specs.Prelude.{◌<◌};
ghost use Rattle.places.specs.Limits.{chapters};

use cart::Cartridge;
use chart::{Leaf, Shown};
use files::{Argument, Failure};
use load::Loaded;
use places::{CHAPTER_PAGES, CHAPTER_PARAGRAPHS, CHAPTERS, FLIP_ENTRIES, IMAGE_LIMIT};
use std::io;

const IMAGE: Argument = Argument {
    place: 1,
    word: "IMAGE",
};

// The lengths of a chapter's line and of a line of pages, and where their first sign and their first page stand.
const CHAPTER_LINE: usize = 37;

const SIGNS_AT: usize = 5;

const PAGES_LINE: usize = 52;

const PAGES_AT: usize = 4;

fn sign_of(s: Shown) -> u8 {
    match s {
        Shown::Silent => b'.',
        Shown::Accelerators => b'J',
        Shown::Paged => b'P',
        Shown::Rom => b'#',
        Shown::Ram16 => b'W',
        Shown::Ram8 => b'B',
    }
}

// Chapter x and the signs of its paragraphs.
fn show_chapter(rt: &HostRuntime, c: Cartridge, x: usize) -> io::Result<()>
    requires { x < chapters }
{
    let mut line = [b' '; CHAPTER_LINE];
    line[0] = b'$';
    line[1] = text::upper_digit(x as u32);
    line[CHAPTER_LINE - 1] = b'\n';
    for k in 0..CHAPTER_PARAGRAPHS {
        line[SIGNS_AT + 2 * k] = sign_of(chart::shown_at(c, (CHAPTER_PARAGRAPHS * x + k) as u8));
    }
    rt.write_all(&line)
}

fn show_chapters(rt: &HostRuntime, c: Cartridge) -> io::Result<()> {
    println!(rt; "     0 1 2 3 4 5 6 7 8 9 A B C D E F")?;
    for x in 0..CHAPTERS {
        show_chapter(rt, c, x)?;
    }
    println!(rt; "\n.  silent    #  ROM    W  RAM 16    B  RAM 8    P  paged    J  JLP\n")
}

// What a flip entry shows, in two bytes: the number of a page of the cartridge's RAM, dots for silence, strokes where the entry does not act.
#[derive(Clone, Copy)]
struct Pair(u8, u8);

fn pair_of(l: Leaf) -> Pair {
    match l {
        Leaf::Idle => Pair(b'-', b'-'),
        Leaf::Silent => Pair(b'.', b'.'),
        Leaf::Page(n) => Pair(
            text::upper_digit(n as u32 / 16),
            text::upper_digit(n as u32),
        ),
    }
}

// Chapter x and what each of its pages shows.
fn show_pages(rt: &HostRuntime, flips: &[u16; FLIP_ENTRIES], x: usize) -> io::Result<()>
    requires { x < chapters }
{
    let mut line = [b' '; PAGES_LINE];
    line[0] = b'$';
    line[1] = text::upper_digit(x as u32);
    line[PAGES_LINE - 1] = b'\n';
    for y in 0..CHAPTER_PAGES {
        let pair = pair_of(chart::leaf_at(flips, (CHAPTER_PAGES * x + y) as u8));
        line[PAGES_AT + 3 * y] = pair.0;
        line[PAGES_AT + 3 * y + 1] = pair.1;
    }
    rt.write_all(&line)
}

// Whether chapter x shows pages: its last paragraph tells.
fn is_paged(c: Cartridge, x: usize) -> bool
    requires { x < chapters }
{
    let last = (CHAPTER_PARAGRAPHS * x + (CHAPTER_PARAGRAPHS - 1)) as u8;
    matches!(chart::shown_at(c, last), Shown::Paged)
}

// Whether any does.
fn any_paged(c: Cartridge) -> bool {
    (0..CHAPTERS).any(|x| is_paged(c, x))
}

fn show_paged(rt: &HostRuntime, c: Cartridge) -> io::Result<()> {
    if !any_paged(c) {
        return Ok(());
    }
    println!(rt; "pages, by the page of cartridge RAM that each shows (.. silence, -- no page)")?;
    println!(rt; "     0  1  2  3  4  5  6  7  8  9  A  B  C  D  E  F")?;
    for x in 0..CHAPTERS {
        if is_paged(c, x) {
            show_pages(rt, &c.flips, x)?;
        }
    }
    println!(rt)
}

fn show(rt: &HostRuntime, c: Cartridge, words: usize) -> io::Result<()> {
    show_chapters(rt, c)?;
    show_paged(rt, c)?;
    let field = c.jlp.field;
    let sectors = c.jlp.saves.sectors;
    println!(rt; "words={words}\njlp={field}\nflash={sectors}")
}

// Loads the image that is named, with the flash that it asks for. The compiler sets so small a function into `main`, where it sees that no word of
// the RAM is asked for, and leaves the RAM out.
fn load_named(
    rt: &HostRuntime,
    file: &mut [u8],
    ram: &mut [u16],
    flash: &[u16],
) -> Result<Loaded, Failure> {
    let read = files::read_argument(rt, IMAGE, file)?;
    let image = &file[..read.n];
    let f = lending::flash_words(image, flash.len());
    Ok(load::load(image, ram, &flash[..f])?)
}

// There is room for one byte more than an image may have, so that a longer file is seen to be longer.
fn main(rt: HostRuntime) {
    let mut file: [u8; IMAGE_LIMIT + 1] = files::room(0);
    let mut ram = lending::blank_ram();
    let flash = lending::erased_flash();
    let _ = match load_named(&rt, &mut file, &mut ram, &flash) {
        Ok(loaded) => show(&rt, loaded.cartridge, loaded.words),
        Err(failure) => rt.print(failure),
    };
}

// Saved games: rows of 96 words in a lent flash, eight rows to a sector, and the registers that act on them (02, W-209; 000, "JLP Flash").
// No word of the cartridge.
#![tactic(auto)]

ghost use Rattle.std.specs.Prelude.{◌+◌, ◌≤◌, ◌≡◌, length, get_or};
ghost use Rattle.basics.specs.Lists.{laid};
ghost use Rattle.flash.specs.Flash.{row_words, sector_words, sector_limit, erased_word, in_range, row_lent, sector_lent, ram_lent, empty_at, readable, writable, read_ram, written_flash, erased_flash, memories, acted};
ghost use Rattle.flash.specs.Registers.{has_flash, last_row, fresh_saves, flash_heard, remembered, command_of};

use places::Console;

// The words of a row, the rows and the words of a sector, the most sectors, and a word that is erased.
pub const ROW_WORDS: usize = 96;

pub const SECTOR_ROWS: usize = 8;

pub const SECTOR_WORDS: usize = SECTOR_ROWS * ROW_WORDS;

pub const SECTOR_LIMIT: usize = 682;

pub const ERASED_WORD: u16 = 0xFFFF;

// The RAM that rows are copied to and from, by its console addresses; a word of it lies this far behind its address in the lent RAM.
pub const RAM_START: u16 = 0x8040;

pub const RAM_END: u16 = 0x9F7F;

pub const RAM_SHIFT: u32 = 0x8000;

// The registers, and the key that each command wants.
pub const JF_FIRST: u16 = 0x8023;

pub const JF_LAST: u16 = 0x8024;

pub const JF_ADDR: u16 = 0x8025;

pub const JF_ROW: u16 = 0x8026;

pub const JF_WRCMD: u16 = 0x802D;

pub const JF_RDCMD: u16 = 0x802E;

pub const JF_ERCMD: u16 = 0x802F;

pub const JF_WRKEY: u16 = 0xC0DE;

pub const JF_RDKEY: u16 = 0xDEC0;

pub const JF_ERKEY: u16 = 0xBEEF;

// What a write can ask of the flash: a row into RAM at an address, RAM at an address into a row, or a row's sector erased.
#[derive(Clone, Copy)]
pub enum Command {
    Read(u16, Console),
    Write(u16, Console),
    Erase(u16),
}

// The flash as the console sees it: its size in sectors, where 0 is none, and the address and row registers as last written.
#[derive(Clone, Copy)]
pub struct Saves {
    pub sectors: u16,
    pub addr: u16,
    pub row: u16,
}

// Whether a row is one of the flash's.
fn in_range(sectors: u16, row: u16) -> bool
    ensures { result ≡ in_range sectors row }
{
    (row as usize) < SECTOR_ROWS * sectors as usize
}

// Whether a row is in range, and lies wholly in so many lent words.
fn row_lent(sectors: u16, words: usize, row: u16) -> bool
    ensures { result ≡ row_lent sectors words row }
{
    let n = row as usize;
    in_range(sectors, row) && ROW_WORDS * n + ROW_WORDS <= words
}

// Whether a row is in range, and its sector lies wholly in so many lent words.
fn sector_lent(sectors: u16, words: usize, row: u16) -> bool
    ensures { result ≡ sector_lent sectors words row }
{
    let n = row as usize / SECTOR_ROWS;
    in_range(sectors, row) && SECTOR_WORDS * n + SECTOR_WORDS <= words
}

// Whether the 96 words at an address are RAM that commands reach, and lie in so many lent words.
fn ram_lent(words: usize, at: Console) -> bool
    ensures { result ≡ ram_lent words at }
{
    let a = at.0 as usize;
    RAM_START as usize <= a
        && a + ROW_WORDS <= RAM_END as usize + 1
        && a + RAM_SHIFT as usize + ROW_WORDS <= words
}

// Whether the 96 words at a place are erased.
fn is_empty(s: &[u16], a: usize) -> bool
    requires { a + row_words ≤ length s.now }
    ensures { result ≡ empty_at s.now a }
{
    (0..ROW_WORDS).all(|i| s[a + i] == ERASED_WORD)
}

// 96 words from place a of one memory to place b of another.
fn copy(from: &[u16], a: usize, to: &mut [u16], b: usize)
    requires { (a + row_words ≤ length from.now) × (b + row_words ≤ length to.old) }
    ensures { to.new ≡ laid b row_words (λ i. get_or from.now (a + i) 0) to.old }
{
    for i in 0..ROW_WORDS {
        to[b + i] = from[a + i];
    }
}

// The 768 words at a place erased.
fn blank(s: &mut [u16], a: usize)
    requires { a + sector_words ≤ length s.old }
    ensures { s.new ≡ laid a sector_words (λ i. erased_word) s.old }
{
    for i in 0..SECTOR_WORDS {
        s[a + i] = ERASED_WORD;
    }
}

// Whether a read acts: the row is there, and the RAM at the address.
fn readable(sectors: u16, flash: &[u16], ram: &[u16], row: u16, at: Console) -> bool
    ensures { result ≡ readable sectors flash.now ram.now row at }
{
    row_lent(sectors, flash.len(), row) && ram_lent(ram.len(), at)
}

// Whether a write acts: the row is empty, too.
fn writable(sectors: u16, flash: &[u16], ram: &[u16], row: u16, at: Console) -> bool
    ensures { result ≡ writable sectors flash.now ram.now row at }
{
    readable(sectors, flash, ram, row, at) && is_empty(flash, ROW_WORDS * row as usize)
}

// A row of flash into RAM.
pub fn read(sectors: u16, flash: &[u16], ram: &mut [u16], row: u16, at: Console)
    ensures { ram.new ≡ read_ram sectors flash.now ram.old row at }
{
    if readable(sectors, flash, ram, row, at) {
        copy(
            flash,
            ROW_WORDS * row as usize,
            ram,
            at.0 as usize + RAM_SHIFT as usize,
        );
    }
}

// RAM into a row of flash that is empty.
pub fn write(sectors: u16, flash: &mut [u16], ram: &[u16], row: u16, at: Console)
    ensures { flash.new ≡ written_flash sectors flash.old ram.now row at }
{
    if writable(sectors, flash, ram, row, at) {
        copy(
            ram,
            at.0 as usize + RAM_SHIFT as usize,
            flash,
            ROW_WORDS * row as usize,
        );
    }
}

// All eight rows of a row's sector erased.
pub fn erase(sectors: u16, flash: &mut [u16], row: u16)
    ensures { flash.new ≡ erased_flash sectors flash.old row }
{
    if sector_lent(sectors, flash.len(), row) {
        blank(flash, SECTOR_WORDS * (row as usize / SECTOR_ROWS));
    }
}

// What a write that asks for this command, or for none, leaves in flash and in RAM.
pub fn act(sectors: u16, flash: &mut [u16], ram: &mut [u16], c: Option<Command>)
    ensures { (flash.new ≡ (acted sectors (memories flash.old ram.old) c).flash)
        × (ram.new ≡ (acted sectors (memories flash.old ram.old) c).ram) }
{
    match c {
        Some(Command::Read(row, at)) => read(sectors, flash, ram, row, at),
        Some(Command::Write(row, at)) => write(sectors, flash, ram, row, at),
        Some(Command::Erase(row)) => erase(sectors, flash, row),
        None => {}
    }
}

// The registers of a flash of this size as a load leaves them.
pub fn fresh(sectors: u16) -> Saves
    ensures { result ≡ fresh_saves sectors }
{
    Saves {
        sectors,
        addr: 0,
        row: 0,
    }
}

// Whether there is a flash of this size.
fn has_flash(sectors: u16) -> bool
    ensures { result ≡ has_flash sectors }
{
    (1..=SECTOR_LIMIT).contains(&(sectors as usize))
}

// The last row of a flash.
fn last_row(sectors: u16) -> u16
    requires { (1 ≤ sectors) × (sectors ≤ sector_limit) }
    ensures { result ≡ last_row sectors }
{
    (SECTOR_ROWS * sectors as usize - 1) as u16
}

// Returns the word that a read of a register gets, where it is not silent.
pub fn hear(s: Saves, at: Console) -> Option<u16>
    ensures { result ≡ flash_heard s at }
{
    let a = at.0;
    if !has_flash(s.sectors) {
        return None;
    }
    if a == JF_FIRST {
        return Some(0);
    }
    if a == JF_LAST {
        return Some(last_row(s.sectors));
    }
    None
}

// The registers behind a write.
pub fn remember(s: Saves, at: Console, value: u16) -> Saves
    ensures { result ≡ remembered s at value }
{
    let a = at.0;
    if !has_flash(s.sectors) {
        return s;
    }
    if a == JF_ADDR {
        return Saves { addr: value, ..s };
    }
    if a == JF_ROW {
        return Saves { row: value, ..s };
    }
    s
}

// The command that a write asks for, by the registers.
pub fn asked(s: Saves, at: Console, value: u16) -> Option<Command>
    ensures { result ≡ command_of s at value }
{
    let a = at.0;
    if !has_flash(s.sectors) {
        return None;
    }
    if a == JF_WRCMD && value == JF_WRKEY {
        return Some(Command::Write(s.row, Console(s.addr)));
    }
    if a == JF_RDCMD && value == JF_RDKEY {
        return Some(Command::Read(s.row, Console(s.addr)));
    }
    if a == JF_ERCMD && value == JF_ERKEY {
        return Some(Command::Erase(s.row));
    }
    None
}

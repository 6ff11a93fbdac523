// What an auditor opens first: the three demands and the bench cases (specs/). The two functions make what the demands speak of, by the
// public functions themselves: a title pressed and loaded, and a cartridge written and loaded.
#![tactic(auto)]

ghost use Rattle.std.specs.Prelude.{◌≡◌, length, take};
ghost use Rattle.tables.specs.Tables.{tables};
ghost use Rattle.load.specs.Load.{load_answer, loading_from};
ghost use Rattle.save.specs.Writing.{content, save_answer, saving_from};
ghost use Rattle.build.specs.Building.{building_of, building_from, outcome_of};
ghost use Rattle.demands.specs.Pressing.{Loads, Pressed, Made};

use basics::{Declined, Refusal};
use build::Built;
use header::{FLAGS_SIZE, UID_SIZE};
use load::Loaded;
use places::{LOCUTUS_PARAGRAPHS, PARAGRAPHS};

// The load of a buffer's first bytes, as many as are asked for and are there.
fn load_front(buffer: &[u8], long: usize, ram: &mut [u16], flash: &[u16]) -> Result<Loaded, Refusal>
    ensures { Loads (take long buffer.now) ram.old (length flash.now) (loading_from result) ram.new × (result ≡ load_answer (loading_from result)) }
{
    if long < buffer.len() {
        return load::load(&buffer[..long], ram, flash);
    }
    load::load(buffer, ram, flash)
}

// The length that a build tells: the image's, also where the buffer is too short for it.
fn length_of(r: Result<Built, Declined>) -> usize
    ensures { result ≡ (building_from r).length }
{
    match r {
        Ok(b) => b.length,
        Err(d) => d.length,
    }
}

// The same of a writing.
fn length_written(r: Result<usize, Declined>) -> usize
    ensures { result ≡ (saving_from r).length }
{
    match r {
        Ok(length) => length,
        Err(d) => d.length,
    }
}

// What `build` answers, and what `load` answers of the image at its buffer's front.
#[derive(Clone, Copy)]
pub struct Title {
    pub building: Result<Built, Declined>,
    pub loading: Result<Loaded, Refusal>,
}

pub fn press_and_load(
    bin: &[u8],
    cfg: &[u8],
    label: &[u8],
    out: &mut [u8],
    ram: &mut [u16],
    flash: &[u16],
) -> Title
    ensures answer { result.building ≡ outcome_of (building_of bin.now cfg.now label.now out.old) }
    ensures pressed { Pressed (record {
      bin = bin.now;
      cfg = cfg.now;
      label = label.now;
      out = out.old;
      ram = ram.old;
      flash = flash.now;
      building = building_from result.building;
      left = out.new;
      loading = loading_from result.loading;
      stored = ram.new;
    }) × (result.loading ≡ load_answer (loading_from result.loading)) }
{
    let building = build::build(bin, cfg, label, out);
    let loading = load_front(out, length_of(building), ram, flash);
    Title { building, loading }
}

// What `write` answers, and what `load` answers of the image at its buffer's front.
#[derive(Clone, Copy)]
pub struct Copy {
    pub writing: Result<usize, Declined>,
    pub loading: Result<Loaded, Refusal>,
}

pub fn write_and_load<'a>(
    out: &mut [u8],
    flags: &[u8; FLAGS_SIZE],
    uid: &[u8; UID_SIZE],
    mapping: &[u16; PARAGRAPHS],
    permissions: &'a [u8; PARAGRAPHS],
    flips: &'a [u16; PARAGRAPHS],
    from: &[u16],
    marks: &[bool; LOCUTUS_PARAGRAPHS],
    ram: &mut [u16],
    flash: &[u16],
) -> Copy
    ensures { Made (record {
      content = content flags.now uid.now (tables mapping.now permissions.now flips.now) from.now marks.now;
      out = out.old;
      ram = ram.old;
      flash = flash.now;
      writing = saving_from result.writing;
      left = out.new;
      loading = loading_from result.loading;
      stored = ram.new;
    })
        × (result.writing ≡ save_answer (saving_from result.writing))
        × (result.loading ≡ load_answer (loading_from result.loading)) }
{
    let writing = save::write(out, flags, uid, mapping, permissions, flips, from, marks);
    let loading = load_front(out, length_written(writing), ram, flash);
    Copy { writing, loading }
}

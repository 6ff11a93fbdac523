// Back to BIN and CFG (02, W-213): an image is loaded once, into zeros, and its hunks are laid over ones; the plan behind it is retraced, and its BIN
// and its CFG are written, each into a lent buffer.
#![tactic(auto)]

mod source;

ghost use Rattle.std.specs.Prelude.{◌≡◌};
ghost use Rattle.places.specs.Limits.{lent, lent_limit};
ghost use Rattle.tables.specs.Tables.{tables};
ghost use Rattle.load.specs.Load.{load_answer, load_ram_of, loading_of};
ghost use Rattle.rebuild.specs.Code.Retraced.{retraced_of};
ghost use Rattle.unbuild.specs.Behind.{bin_behind, cfg_behind, unbuildable};
ghost use Rattle.unbuild.specs.Code.Answers.{Answered, AnswersBy, Plain, refusalAccelerated};
ghost use Rattle.unbuild.specs.Content.{image_jlp, image_tables, whole_ram};
ghost use Rattle.unbuild.specs.Laws.Two.{whole_ones};
ghost use Rattle.unbuild.specs.Unbuild.{bin_after, cfg_after, unbuilding_of};

use basics::Refusal;
use cart::Cartridge;
use load::Loaded;
use places::LENT_LIMIT;
use rebuild::{Retraced, retrace_image};
use source::{refuse, write_source};

// What going back answers: its refusal, and the lengths of the BIN and of the CFG, also where a buffer is too short for one of them.
#[derive(Clone, Copy)]
pub struct Unbuilding {
    pub refusal: Refusal,
    pub bin: usize,
    pub cfg: usize,
}

// A load with no flash lent.
fn load_into(image: &[u8], ram: &mut [u16]) -> Result<Loaded, Refusal>
    ensures { (result ≡ load_answer (loading_of image.now (lent ram.old) 0)) × (ram.new ≡ load_ram_of image.now ram.old 0) }
{
    let flash = [0u16; 0];
    load::load(image, ram, &flash)
}

// What is retraced of a cartridge as it was loaded, and of the words of two RAMs.
fn retrace_cartridge(c: Cartridge, zeros: &[u16], ones: &[u16]) -> Retraced
    ensures { result ≡ retraced_of (tables c.initial_mapping c.initial_permissions c.flips) zeros.now ones.now }
{
    let mapping = c.initial_mapping;
    let permissions = c.initial_permissions;
    let flips = c.flips;
    retrace_image(mapping, permissions, flips, zeros, ones)
}

// Of an image that was loaded into zeros: the words that its hunks, laid over ones, leave as they were are those that it does not name.
fn retrace_loaded(image: &[u8], c: Cartridge, zeros: &[u16], ones: &mut [u16]) -> Retraced
    requires { (Plain image.now) × (c ≡ (loading_of image.now lent_limit 0).cartridge) × (ones.old ≡ whole_ones) }
    ensures { (result ≡ retraced_of (image_tables image.now) zeros.now ones.new) × (ones.new ≡ load_ram_of image.now whole_ones 0) }
{
    load::lay_hunks(image, ones);
    retrace_cartridge(c, zeros, ones)
}

// Its BIN and its CFG.
fn unbuild_loaded(
    image: &[u8],
    c: Cartridge,
    zeros: &[u16],
    ones: &mut [u16],
    bin: &mut [u8],
    cfg: &mut [u8],
) -> Unbuilding
    requires { (Plain image.now) × (c ≡ (loading_of image.now lent_limit 0).cartridge) × (zeros.now ≡ load_ram_of image.now whole_ram 0) × (ones.old ≡ whole_ones) }
    ensures { AnswersBy (unbuildable image.now) (bin_behind image.now) (cfg_behind image.now) bin.old cfg.old result bin.new cfg.new }
{
    let k = retrace_loaded(image, c, zeros, ones);
    write_source(k, zeros, bin, cfg)
}

// An image that asks no accelerators: its load into zeros, with no flash lent, is what judges it.
fn unload_into(
    image: &[u8],
    zeros: &mut [u16],
    ones: &mut [u16],
    bin: &mut [u8],
    cfg: &mut [u8],
) -> Unbuilding
    requires { (image_jlp image.now ≡ 0) × (zeros.old ≡ whole_ram) × (ones.old ≡ whole_ones) }
    ensures { Answered image.now bin.old cfg.old result bin.new cfg.new }
{
    match load_into(image, zeros) {
        Err(r) => refuse(r),
        Ok(l) => unbuild_loaded(image, l.cartridge, zeros, ones, bin, cfg),
    }
}

fn unload(image: &[u8], bin: &mut [u8], cfg: &mut [u8]) -> Unbuilding
    requires { image_jlp image.now ≡ 0 }
    ensures { Answered image.now bin.old cfg.old result bin.new cfg.new }
{
    let mut zeros = [0u16; LENT_LIMIT];
    let mut ones = [0xFFFFu16; LENT_LIMIT];
    unload_into(image, &mut zeros, &mut ones, bin, cfg)
}

// The JLP field; 0 of an image that ends before it.
fn jlp_of(image: &[u8]) -> u8
    ensures { result ≡ image_jlp image.now }
{
    header::jlp_field(header::flags_of(image))
}

// What is refused of an image that has accelerators: what its load refuses, 13 by its size; else 31.
fn refusal_accelerated(image: &[u8]) -> Refusal
    ensures { result ≡ refusalAccelerated image.now }
{
    match load::refusal_for(image, LENT_LIMIT) {
        Err(r) => r,
        Ok(()) => basics::refuse(31, 0),
    }
}

// A BIN and a CFG from an image, each into the front of a lent buffer; before all else what a load into 524,288 words refuses, 13 by its size.
pub fn unbuild(image: &[u8], bin: &mut [u8], cfg: &mut [u8]) -> Unbuilding
    ensures { (result ≡ unbuilding_of image.now bin.old cfg.old)
        × (bin.new ≡ bin_after image.now bin.old cfg.old)
        × (cfg.new ≡ cfg_after image.now bin.old cfg.old) }
{
    if jlp_of(image) != 0 {
        return refuse(refusal_accelerated(image));
    }
    unload(image, bin, cfg)
}

// What else the desk does with an image: a text by its tag, what is sound of a damaged one, and back to BIN and CFG.
ghost use Rattle.std.specs.Prelude.{◌≡◌, length};
ghost use Rattle.lookup.specs.Lookup.{find_of};
ghost use Rattle.recovery.specs.Salvage.{salvaging_from, salvaging_of, written_of, drops_in, listed_in};
ghost use Rattle.unbuild.specs.Unbuild.{unbuilding_of, bin_after, cfg_after};
ghost use Rattle.exports.specs.Desk.{text_in, found_as, salvaged_at, salvaged_as, unbuilt_as};

use basics::{Declined, Refusal};
use lookup::Place;
use metadata::Span;
use unbuild::Unbuilding;

// Where a text stands: bytes `from` up to `to` of no file, 0, of the label, 1, or of the image, 2.
#[repr(C)]
#[derive(Clone, Copy)]
pub struct FoundText {
    pub number: u32,
    pub file: u32,
    pub place: usize,
    pub from: usize,
    pub to: usize,
}

fn text_in(file: u32, x: Span) -> FoundText
    ensures { result ≡ text_in file x.from x.to }
{
    FoundText {
        number: 0,
        file,
        place: 0,
        from: x.from,
        to: x.to,
    }
}

fn found_as(f: Result<Option<Place>, Refusal>) -> FoundText
    ensures { result ≡ found_as f }
{
    match f {
        Ok(None) => text_in(0, Span { from: 0, to: 0 }),
        Ok(Some(Place::Label(x))) => text_in(1, x),
        Ok(Some(Place::Image(x))) => text_in(2, x),
        Err(r) => FoundText {
            number: r.number,
            file: 0,
            place: r.place,
            from: 0,
            to: 0,
        },
    }
}

// The n-th text with a tag: the label's, which may be empty, else the image's.
#[unsafe(no_mangle)]
pub extern "C" fn luigi_find(label: &[u8], image: &[u8], tag: u8, n: usize) -> FoundText
    ensures { result ≡ found_as (find_of label.now image.now tag n) }
{
    found_as(lookup::find(label, image, tag, n))
}

// What a salvage answers; it stopped at `stop` where `stopped` is 1.
#[repr(C)]
#[derive(Clone, Copy)]
pub struct Salvaged {
    pub number: u32,
    pub stopped: u32,
    pub place: usize,
    pub length: usize,
    pub kept: usize,
    pub dropped: usize,
    pub stop: usize,
}

fn salvaged_at(s: recovery::Salvaged, stopped: u32, stop: usize) -> Salvaged
    ensures { result ≡ salvaged_at (salvaging_from (Ok s)) stopped stop }
{
    Salvaged {
        number: 0,
        stopped,
        place: 0,
        length: s.length,
        kept: s.kept,
        dropped: s.dropped,
        stop,
    }
}

fn salvaged_as(answer: Result<recovery::Salvaged, Declined>) -> Salvaged
    ensures { result ≡ salvaged_as (salvaging_from answer) }
{
    match answer {
        Err(d) => Salvaged {
            number: d.refusal.number,
            stopped: 0,
            place: d.refusal.place,
            length: d.length,
            kept: 0,
            dropped: 0,
            stop: 0,
        },
        Ok(s) => match s.stopped {
            None => salvaged_at(s, 0, 0),
            Some(p) => salvaged_at(s, 1, p),
        },
    }
}

// What is sound of a damaged image, into the front of a lent buffer.
#[unsafe(no_mangle)]
pub extern "C" fn luigi_salvage(image: &[u8], out: &mut [u8]) -> Salvaged
    ensures { (result ≡ salvaged_as (salvaging_of out.old image.now)) × (out.new ≡ written_of out.old image.now) }
{
    salvaged_as(recovery::salvage(image, out))
}

// How many blocks a salvage leaves out, and the places of the first of them, as many as are lent.
#[unsafe(no_mangle)]
pub extern "C" fn luigi_drops(image: &[u8], places: &mut [usize]) -> usize
    ensures { (result ≡ length (drops_in image.now)) × (places.new ≡ listed_in image.now places.old) }
{
    recovery::drops(image, places)
}

// What going back answers: its refusal, and the lengths of BIN and CFG.
#[repr(C)]
#[derive(Clone, Copy)]
pub struct Unbuilt {
    pub number: u32,
    pub place: usize,
    pub bin: usize,
    pub cfg: usize,
}

fn unbuilt_as(u: Unbuilding) -> Unbuilt
    ensures { result ≡ unbuilt_as u }
{
    Unbuilt {
        number: u.refusal.number,
        place: u.refusal.place,
        bin: u.bin,
        cfg: u.cfg,
    }
}

// The BIN and the CFG that build an image again, into the fronts of two lent buffers.
#[unsafe(no_mangle)]
pub extern "C" fn luigi_unbuild(image: &[u8], bin: &mut [u8], cfg: &mut [u8]) -> Unbuilt
    ensures { (result ≡ unbuilt_as (unbuilding_of image.now bin.old cfg.old))
        × (bin.new ≡ bin_after image.now bin.old cfg.old)
        × (cfg.new ≡ cfg_after image.now bin.old cfg.old) }
{
    unbuilt_as(unbuild::unbuild(image, bin, cfg))
}

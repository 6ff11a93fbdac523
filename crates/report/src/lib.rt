// The image card: what is printed of an image, and the program that prints it.
#![tactic(auto)]

mod program;

ghost use Rattle.std.specs.Prelude.{◌≡◌};
ghost use Rattle.places.specs.Limits.{lent};
ghost use Rattle.report.specs.Report.{report_answer, report_of, report_ram_of};

use basics::Refusal;
use places::CARD_LIMIT;
pub use program::card;

// What is printed of a load that nothing refuses.
#[derive(Clone, Copy)]
pub struct Counts {
    pub blocks: usize,
    pub words: usize,
}

// The card's answer: 30 before all others.
pub fn answer(image: &[u8], ram: &mut [u16]) -> Result<Counts, Refusal>
    ensures { (result ≡ report_answer (report_of image.now (lent ram.old))) × (ram.new ≡ report_ram_of image.now ram.old) }
{
    if CARD_LIMIT < image.len() {
        return Err(basics::refuse(30, 0));
    }
    let none = [0u16; 0];
    let l = load::load(image, ram, &none)?;
    Ok(Counts {
        blocks: l.blocks,
        words: l.words,
    })
}

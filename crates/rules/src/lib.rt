// Which lines of a CFG a build accepts: rules 25 to 28 (01, "Numbers that come back").
#![tactic(auto)]

mod chapters;
mod shape;

ghost use Rattle.std.specs.Prelude.{◌≡◌, ◌≢◌, IfErr};
ghost use Rattle.basics.specs.Refusals.{first_refusal, passed};
ghost use Rattle.rules.specs.Rules.{line_rows, refusal_of, collides_with, numbered};
ghost use Rattle.rules.specs.Code.Clashes.{Allowed, clash_of};

use basics::{Refusal, refuse};
use chapters::{first_broken, kinds_of};
use lines::Line;
use owners::Owners;
use shape::fault_of;

// 25 and 26, line by line.
fn line_fault(words: u32, lines: &[Line]) -> Result<(), Refusal>
    ensures { result ≡ passed (first_refusal (line_rows words lines.now)) }
{
    for l in lines {
        fault_of(words, *l)?;
    }
    Ok(())
}

// Rule 27's refusal, and the earlier line that the refused one meets.
#[derive(Clone, Copy)]
struct Clash {
    refusal: Refusal,
    with: u32,
}

impl From<Clash> for Refusal {
    ghost from_gives = { λ c r. r ≡ c.refusal };

    fn from(clash: Clash) -> Refusal {
        clash.refusal
    }
}

// 27: each line against the owners that the earlier ones made. Where none clashes, the owners are those that all lines make.
fn first_clash(lines: &[Line]) -> Result<Owners, Clash>
    requires { Allowed lines.now }
    ensures clash { result ≡ clash_of lines.now }
    ensures named { IfErr result (λ k. k.with ≢ 0) }
{
    let mut owners = owners::no_owners();
    for l in lines {
        let with = owners::least_owner(owners, l.entry);
        if with != 0 {
            let refusal = refuse(27, l.source as usize);
            return Err(Clash { refusal, with });
        }
        owners = owners::claim(owners, *l);
    }
    Ok(owners)
}

// What rules 25 to 28 say of the lines of a CFG, for a BIN of so many words.
pub fn judge(words: u32, lines: &[Line]) -> Result<(), Refusal>
    ensures { result ≡ passed (refusal_of words lines.now) }
{
    line_fault(words, lines)?;
    let owners = first_clash(lines)?;
    first_broken(&owners.pages, &kinds_of(lines))
}

// The number of the earlier line with which the line that 27 refuses collides; none where 27 is not what refuses.
pub fn collides_with(words: u32, lines: &[Line]) -> Option<u32>
    ensures { result ≡ numbered (collides_with words lines.now) }
{
    line_fault(words, lines).ok()?;
    match first_clash(lines) {
        Ok(_) => None,
        Err(clash) => Some(clash.with),
    }
}

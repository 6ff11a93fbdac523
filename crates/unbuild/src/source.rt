// The BIN and the CFG of what was retraced: 31, 32, 29, or both written.
ghost use Rattle.std.specs.Prelude.{◌≤◌, ◌≡◌, false, not, length};
ghost use Rattle.places.specs.Limits.{bin_limit};
ghost use Rattle.unbuild.specs.Code.Answers.{AnswersBy, bare, bin_in, cfgIn};

use crate::Unbuilding;
use basics::{Refusal, either, put_bytes};
use ledger::{Listing, Sketch};
use places::BIN_LIMIT;
use rebuild::Retraced;
use sheet::sheet_of;

// A refusal, and zero in all else.
pub(crate) fn refuse(r: Refusal) -> Unbuilding
    ensures { result ≡ bare r }
{
    Unbuilding {
        refusal: r,
        bin: 0,
        cfg: 0,
    }
}

// 29, where either buffer is too short; else both are written.
fn write_both(s: &Sketch, l: Listing, ram: &[u16], bin: &mut [u8], cfg: &mut [u8]) -> Unbuilding
    requires { length (bin_in s.now ram.now) ≤ bin_limit }
    ensures { AnswersBy false (bin_in s.now ram.now) (cfgIn l) bin.old cfg.old result bin.new cfg.new }
{
    let n = s.bin_size();
    let text = sheet_of(l.mapping, l.as_slice());
    let m = text.length;
    if either(bin.len() < n, cfg.len() < m) {
        return Unbuilding {
            refusal: basics::refuse(29, 0),
            bin: n,
            cfg: m,
        };
    }
    s.put_bin(bin, ram);
    put_bytes(cfg, text.as_bytes());
    Unbuilding {
        refusal: basics::no_refusal(),
        bin: n,
        cfg: m,
    }
}

// 31 and 32 before it.
pub(crate) fn write_source(k: Retraced, ram: &[u16], bin: &mut [u8], cfg: &mut [u8]) -> Unbuilding
    ensures { AnswersBy (not k.fits) (bin_in k.sketch ram.now) (cfgIn k.listing) bin.old cfg.old result bin.new cfg.new }
{
    let s = k.sketch;
    let l = k.listing;
    if !k.fits {
        return refuse(basics::refuse(31, 0));
    }
    if BIN_LIMIT < s.bin_size() {
        return refuse(basics::refuse(32, 0));
    }
    write_both(&s, l, ram, bin, cfg)
}

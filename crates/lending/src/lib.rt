// What a program lends to a load of any image: a RAM of zeros, and of an erased flash the words that the image asks for.
#![tactic(auto)]

ghost use Rattle.std.specs.Prelude.{min, ℕ, ◌≡◌, length, replicate};
ghost use Rattle.places.specs.Limits.{lent_limit};
ghost use Rattle.flash.specs.Flash.{erased_word};
ghost use Rattle.lending.specs.Lending.{flash_limit, flash_for};

use places::LENT_LIMIT;

// The most words of flash that refusal 13 lets through; the flags of an image can ask for more.
pub const FLASH_LIMIT: usize = flash::SECTOR_LIMIT * flash::SECTOR_WORDS;

pub fn blank_ram() -> [u16; LENT_LIMIT]
    ensures { (result ≡ replicate {A = ℕ} lent_limit 0) × (lent_limit ≡ length result) }
{
    [0; LENT_LIMIT]
}

pub fn erased_flash() -> [u16; FLASH_LIMIT]
    ensures { (result ≡ replicate {A = ℕ} flash_limit erased_word) × (flash_limit ≡ length result) }
{
    [flash::ERASED_WORD; FLASH_LIMIT]
}

// The words of flash that an image asks for: none where it has no JLP flash, or is too short to ask.
pub fn flash_for(image: &[u8]) -> usize
    ensures { result ≡ flash_for image.now }
{
    if image.len() < header::UID_AT {
        return 0;
    }
    let from = header::FLAGS_AT;
    let to = header::UID_AT;
    let j = tables::jlp_of(&image[from..to]);
    let saves = j.saves;
    saves.sectors as usize * flash::SECTOR_WORDS
}

// Of so many at most.
pub fn flash_words(image: &[u8], most: usize) -> usize
    ensures { result ≡ min (flash_for image.now) most }
{
    basics::least(flash_for(image), most)
}

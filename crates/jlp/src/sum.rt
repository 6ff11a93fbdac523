// The CRC, one word at a time (000, "JLP CRC-16 Accelerator").
ghost use Rattle.std.specs.Prelude.{◌≡◌};
ghost use Rattle.jlp.specs.Crc.{crc_word};

// The polynomial.
pub const JLP_POLY: u16 = 0xAD52;

// The CRC after one more word.
pub fn checksum(crc: u16, word: u16) -> u16
    ensures { result ≡ crc_word crc word }
{
    sums::bits(u32::from(JLP_POLY), 16, u32::from(crc ^ word)) as u16
}

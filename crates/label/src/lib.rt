// A publisher's label file as a metadata block: its bytes as they stand, in one frame (02, "W-204").
#![tactic(auto)]

ghost use Rattle.std.specs.Prelude.{◌≡◌, ◌+◌, ◌≤◌, length};
ghost use Rattle.blocks.specs.Blocks.{frame_size, payload_limit};
ghost use Rattle.label.specs.Label.{label_block, wrong_label, label_answer, writing_of, written_of};

use basics::Declined;
use blocks::{FRAME_SIZE, PAYLOAD_LIMIT};

// 12, of a label that is to be a block.
#[tactic(auto, unfolding(crate::specs::Label::wrong_label))]
pub fn is_wrong(label: &[u8]) -> bool
    ensures { result ≡ wrong_label label.now }
{
    metadata::is_cut(label) || PAYLOAD_LIMIT < label.len()
}

// The label's block, into a part of just its size.
fn put_block(out: &mut [u8], label: &[u8])
    requires { (length out.old ≡ frame_size + length label.now) × (length label.now ≤ payload_limit) }
    ensures { out.new ≡ label_block label.now }
{
    basics::put_bytes(&mut out[FRAME_SIZE..], label);
    blocks::put_frame(out, blocks::METADATA_TYPE, sums::crc324(label));
}

// Writes the label's block at the front of a lent buffer, and returns its length; the length that is needed where the buffer is too short for it.
pub fn write(out: &mut [u8], label: &[u8]) -> Result<usize, Declined>
    ensures { (result ≡ label_answer (writing_of out.old label.now)) × (out.new ≡ written_of out.old label.now) }
{
    if is_wrong(label) {
        return Err(Declined::from(basics::refuse(12, 0)));
    }
    let long = FRAME_SIZE + label.len();
    if out.len() < long {
        return Err(Declined {
            refusal: basics::refuse(29, 0),
            length: long,
        });
    }
    put_block(&mut out[0..long], label);
    Ok(long)
}

// Frames of elements, and of EOD. The public call is `build_element`.
#![tactic(auto)]

ghost use Rattle.std.specs.Prelude.{◌≡◌, true, length};
ghost use Rattle.geometry.specs.Pick.{pick};
ghost use Rattle.geometry.specs.Refusal.{verdict_number};
ghost use Rattle.frame.specs.Lengths.{frame_length, data_length};
ghost use Rattle.frame.specs.Frame.{data_bytes, element_frame, element_fits, lent_fits};

use aux_building::build_aux;
use buffer_writing::{clear, copy_all};
use frame::{DATA_LENGTH, Element, FRAME_LENGTH, Kind, element_aux};
use geometry::Refusal;

// Whether the buffers have the lengths that the frame needs: only a data frame takes a block.
fn fits(k: Kind, frame: usize, block: usize) -> bool
    ensures { result ≡ element_fits k frame block }
{
    match k {
        Kind::Data => frame == FRAME_LENGTH && block == DATA_LENGTH,
        Kind::Marker | Kind::Eod => frame == FRAME_LENGTH,
    }
}

// The data bytes of a frame.
#[tactic(auto, using(frame::proofs::Frames::cleared))]
fn fill_data(front: &mut [u8], k: Kind, block: &[u8])
    requires front_len { length front.old ≡ data_length }
    requires block_value { element_fits k frame_length (length block.now) ≡ true }
    ensures { front.new ≡ data_bytes k block.now }
{
    match k {
        Kind::Data => copy_all(front, block),
        Kind::Marker | Kind::Eod => clear(front),
    }
}

// Fills the frame of an element, given its block, or of EOD. Lengths that do not fit are refused with 1, and the frame is left alone.
#[tactic(auto, unfolding(frame::specs::Frame::element_frame), using(frame::proofs::Frames::fits_length))]
pub fn build_element(frame: &mut [u8], e: Element, block: &[u8]) -> Result<(), Refusal>
    ensures answer { verdict_number result ≡ pick (lent_fits e frame.old block.now) 0 1 }
    ensures bytes { frame.new ≡ pick (lent_fits e frame.old block.now) (element_frame e block.now) frame.old }
{
    if !fits(e.kind, frame.len(), block.len()) {
        return Err(Refusal::Length);
    }
    fill_data(&mut frame[..DATA_LENGTH], e.kind, block);
    build_aux(&mut frame[DATA_LENGTH..], element_aux(e))
}

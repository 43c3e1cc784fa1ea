// The frame that a WRITE of a recording writes. The public calls are the methods of `recording`.
#![tactic(auto)]

mod window;

ghost use Rattle.std.specs.Prelude.{◌≡◌, length};
ghost use Rattle.geometry.specs.Pick.{pick};
ghost use Rattle.geometry.specs.Refusal.{verdict_number};
ghost use Rattle.recording_state.specs.State.{window_length};
ghost use Rattle.recording_state.specs.Fetch.{has_lengths};
ghost use Rattle.recording_state.specs.Written.{element_of, written_element, written_header, written_frame};

use crate::window::block_at;
use element_building::build_element;
use frame::{DATA_LENGTH, Element, FRAME_LENGTH};
use geometry::Refusal;
use header_building::build_header;
use recording_state::{Stage, State};

// The next element to be written, or EOD, with the filemarks before it at their present addresses.
#[tactic(auto, unfolding(recording_state::specs::Written::element_of), using(frame::proofs::FrameTypes::type_tells))]
fn element(s: State) -> Element
    ensures { result ≡ element_of s }
{
    let header = s.copies.header;
    let queue = s.elements.queue;
    let trail = s.elements.trail_after(queue.outstanding);
    Element {
        kind: s.elements.kind(),
        pass: header.pass,
        last: header.last,
        seq: queue.number(queue.outstanding),
        filemarks: trail.filemarks,
        marker: trail.marker,
    }
}

// Fills the frame of the next element, or of EOD.
fn fill_element(s: State, window: &[u8], frame: &mut [u8; FRAME_LENGTH]) -> Result<(), Refusal>
    requires { length window.now ≡ window_length s }
    ensures answer { verdict_number result ≡ 0 }
    ensures bytes { frame.new ≡ written_element s window.now }
{
    let block = block_at(window, s.place(s.elements.queue.outstanding));
    build_element(frame, element(s), block)
}

// Fills the frame of the header that the copies carry.
fn fill_header(s: State, frame: &mut [u8; FRAME_LENGTH]) -> Result<(), Refusal>
    ensures answer { verdict_number result ≡ 0 }
    ensures bytes { frame.new ≡ written_header s }
{
    build_header(frame, s.copies.header)
}

// Fills one or the other, by the stage.
#[tactic(auto, unfolding(recording_state::specs::Written::written_frame))]
fn fill_stage(s: State, window: &[u8], frame: &mut [u8; FRAME_LENGTH]) -> Result<(), Refusal>
    requires { length window.now ≡ window_length s }
    ensures answer { verdict_number result ≡ 0 }
    ensures bytes { frame.new ≡ written_frame s window.now }
{
    match s.stage {
        Stage::Elements => fill_element(s, window, frame),
        _ => fill_header(s, frame),
    }
}

// Fills the frame of a WRITE. A window or a frame of another length is refused with 1, and the frame is left alone.
pub fn fill(s: State, window: &[u8], frame: &mut [u8]) -> Result<(), Refusal>
    ensures answer { verdict_number result ≡ pick (has_lengths s window.now frame.old) 0 1 }
    ensures bytes { frame.new ≡ pick (has_lengths s window.now frame.old) (written_frame s window.now) frame.old }
{
    if window.len() != s.blocks() * DATA_LENGTH {
        return Err(Refusal::Length);
    }
    fill_stage(s, window, frame.as_mut_array().ok_or(Refusal::Length)?)
}

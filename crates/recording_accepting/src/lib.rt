// Accepting blocks and filemarks, and close. The public calls are the methods of `recording`.
#![tactic(auto)]

mod window;

ghost use Rattle.std.specs.Prelude.{◌≡◌};
ghost use Rattle.recording_state.specs.State.{outcome_said};
ghost use Rattle.recording_state.specs.Accept.{is_full, accepts_none, with_element, filemark_of, stored_said, block_of, is_spent, close_of};

use crate::window::put_block;
use frame::DATA_LENGTH;
use geometry::{Outcome, Refusal};
use recording_state::State;

// The phase is wrong for an accept and for close.
fn accepts_none(s: State) -> bool
    ensures { result ≡ accepts_none s }
{
    s.ended || s.closed
}

// As many elements are not known to be on tape as the window has blocks.
fn is_full(s: State) -> bool
    ensures { result ≡ is_full s }
{
    (s.setup.highest as u16) < s.elements.queue.pending
}

// One element more, a filemark or not.
fn with_element(s: State, mark: bool) -> State
    ensures { result ≡ with_element s mark }
{
    State {
        elements: s.elements.accept(mark),
        ..s
    }
}

// Accepts a filemark.
#[tactic(auto, unfolding(recording_state::specs::Accept::filemark_of))]
pub fn accept_filemark(s: State) -> Outcome<State>
    ensures { outcome_said result ≡ filemark_of s }
{
    if accepts_none(s) {
        return (s, Err(Refusal::Phase));
    }
    if is_full(s) {
        return (s, Err(Refusal::WindowFull));
    }
    (with_element(s, true), Ok(()))
}

// Accepts a block and stores it in the window, from which it is written and, after an error, written again.
#[tactic(auto, unfolding(recording_state::specs::Accept::block_of))]
pub fn accept_block(s: State, block: &[u8], window: &mut [u8]) -> Outcome<State>
    ensures { stored_said result window.new ≡ block_of s block.now window.old }
{
    if accepts_none(s) {
        return (s, Err(Refusal::Phase));
    }
    if block.len() != DATA_LENGTH || window.len() != s.blocks() * DATA_LENGTH {
        return (s, Err(Refusal::Length));
    }
    if is_full(s) {
        return (s, Err(Refusal::WindowFull));
    }
    put_block(window, s.place(s.elements.queue.pending), block);
    (with_element(s, false), Ok(()))
}

// Whether close may still be called though the session has ended.
fn is_spent(s: State) -> bool
    ensures { result ≡ is_spent s }
{
    s.ended && s.spent
}

// No element is accepted any more; EOD and the closing headers follow. A spent session gives up what is not on tape.
#[tactic(auto, unfolding(recording_state::specs::Accept::close_of))]
pub fn close(s: State) -> Outcome<State>
    ensures { outcome_said result ≡ close_of s }
{
    if is_spent(s) {
        return (s.give_up(), Ok(()));
    }
    if accepts_none(s) {
        return (s, Err(Refusal::Phase));
    }
    (State { closed: true, ..s }.settle(), Ok(()))
}

// Fetching the next command. The public calls are the methods of `recording`.
#![tactic(auto)]

mod due;

ghost use Rattle.std.specs.Prelude.{◌≡◌, length};
ghost use Rattle.geometry.specs.Refusal.{verdict_number};
ghost use Rattle.frame.specs.Lengths.{frame_length};
ghost use Rattle.recording_state.specs.State.{window_length};
ghost use Rattle.recording_state.specs.Fetch.{fetched_said, frame_for, sending, fetch_of};

use crate::due::decision;
use drive::{Command, Exchange};
use frame::{DATA_LENGTH, FRAME_LENGTH};
use geometry::{Outcome, Refusal};
use recording_filling::fill;
use recording_state::{Answer, State};

// Fills the frame of a WRITE; any other command leaves it alone.
fn fill_for(c: Command, s: State, window: &[u8], frame: &mut [u8]) -> Result<(), Refusal>
    requires window_len { length window.now ≡ window_length s }
    requires frame_len { length frame.old ≡ frame_length }
    ensures answer { verdict_number result ≡ 0 }
    ensures bytes { frame.new ≡ frame_for c s window.now frame.old }
{
    match c {
        Command::Write(_) => fill(s, window, frame),
        _ => Ok(()),
    }
}

// Hands out a command.
#[tactic(auto, unfolding(recording_state::specs::Fetch::sending))]
fn send(s: State, c: Command, window: &[u8], frame: &mut [u8]) -> Outcome<State, Answer>
    requires window_len { length window.now ≡ window_length s }
    requires frame_len { length frame.old ≡ frame_length }
    ensures { fetched_said result frame.new ≡ sending s c window.now frame.old }
{
    if let Err(r) = fill_for(c, s, window, frame) {
        return (s, Err(r));
    }
    let session = State {
        exchange: Exchange::sent(c),
        ..s
    };
    (session, Ok(Answer::Command(c)))
}

// The next command, or idle, or done. The window must be as the accepts left it; no byte of the frame is written but for a WRITE.
#[tactic(auto, unfolding(recording_state::specs::Fetch::fetch_of))]
pub fn fetch(s: State, window: &[u8], frame: &mut [u8]) -> Outcome<State, Answer>
    ensures { fetched_said result frame.new ≡ fetch_of s window.now frame.old }
{
    if s.ended || s.exchange.awaiting {
        return (s, Err(Refusal::Phase));
    }
    if window.len() != s.blocks() * DATA_LENGTH || frame.len() != FRAME_LENGTH {
        return (s, Err(Refusal::Length));
    }
    match decision(s) {
        Ok(Answer::Command(c)) => send(s, c, window, frame),
        Ok(answer) => (s, Ok(answer)),
        Err(r) => (s.ended_by(r), Err(r)),
    }
}

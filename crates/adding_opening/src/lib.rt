// Opening a recording behind what a reading has delivered, on the states of both sessions.
#![tactic(auto)]

ghost use Rattle.std.specs.Prelude.{◌≡◌};
ghost use Rattle.recording_state.specs.State.{outcome_said};
ghost use Rattle.adding_opening.specs.AtEnd.{ends_elsewhere, added_session, open_at_end_of};

use carried_headers::{add_to, is_counted_out};
use geometry::{Address, Outcome, Refusal};
use recording_opening::{is_misfit, refuse_opening, session_at, setup_of};
use recording_state::{Setup, Sizes, State};

// Whether the header names no EOD, or another than the reading ended at.
fn ends_elsewhere(reading: reading_state::State) -> bool
    ensures { result ≡ ends_elsewhere reading }
{
    let eod = reading.told.eod;
    eod == Address(0) || eod != reading.end_address()
}

// The session that writes over that EOD and goes on behind it.
fn added_session(setup: Setup, reading: reading_state::State) -> State
    ensures { result ≡ added_session setup reading }
{
    let told = reading.told;
    let end = reading.end_address();
    session_at(
        setup,
        add_to(told.last, told.pass, told.update, end),
        end,
        reading.expected,
        reading.trail,
    )
}

// Opens a recording at the end of a reading. The reading is not used up.
#[tactic(auto, unfolding(crate::specs::AtEnd::open_at_end_of))]
pub fn open_at_end(reading: reading_state::State, sizes: Sizes) -> Outcome<State>
    ensures { outcome_said result ≡ open_at_end_of reading sizes.depth sizes.blocks sizes.tail }
{
    if !reading.is_at_end() {
        return refuse_opening(Refusal::Phase);
    }
    if is_misfit(sizes) {
        return refuse_opening(Refusal::Capacity);
    }
    if is_counted_out(reading.told.update) {
        return refuse_opening(Refusal::Exhausted);
    }
    if ends_elsewhere(reading) {
        return refuse_opening(Refusal::EndElsewhere);
    }
    (added_session(setup_of(sizes), reading), Ok(()))
}

// Opening a reading session. The public calls are the methods of `reading`.
#![tactic(auto)]

ghost use Rattle.std.specs.Prelude.{◌≡◌};
ghost use Rattle.geometry.specs.Refusal.{refusal_number};
ghost use Rattle.reading_state.specs.Open.{opened_said, fresh, open_refused, open_of};

use drive::Exchange;
use frame::{Header, no_trail};
use geometry::{Address, FIRST_USER, Geometry, Outcome, Refusal, Seq};
use header::read_header;
use reading_state::{Position, State};

// A session at its first command, by what the header tells.
fn fresh_session(told: Header) -> State
    ensures { result ≡ fresh told }
{
    State {
        told,
        position: Position {
            next: Address(FIRST_USER),
            locate: true,
        },
        expected: Seq(0),
        trail: no_trail(),
        exchange: Exchange::unsent(),
        finished: false,
        ended: false,
    }
}

// A refused opening returns an ended session.
fn refuse_opening(refusal: Refusal) -> Outcome<State>
    ensures { opened_said result ≡ open_refused (refusal_number refusal) }
{
    let session = fresh_session(Header::default());
    (session.ended(), Err(refusal))
}

// Opens a reading on the newest header of the cartridge.
#[tactic(auto, unfolding(reading_state::specs::Open::open_of))]
pub fn open(g: Geometry, header: &[u8]) -> Outcome<State>
    ensures { opened_said result ≡ open_of g header.now }
{
    match read_header(g, header) {
        Ok(told) => (fresh_session(told), Ok(())),
        Err(r) => refuse_opening(r),
    }
}

// Opening a recording session. The public calls are the methods of `recording`.
#![tactic(auto)]

ghost use Rattle.std.specs.Prelude.{◌≡◌};
ghost use Rattle.geometry.specs.Refusal.{refusal_number};
ghost use Rattle.recording_state.specs.State.{outcome_said};
ghost use Rattle.recording_state.specs.Open.{started_at, setup_of, fresh, open_refused, is_misfit, open_with, open_of, open_blank_of};

use carried_headers::{blank_header, is_exhausted, renew};
use copies::Copies;
use drive::Exchange;
use elements::Elements;
use frame::{Header, MOST_BLOCKS, Trail, no_trail};
use geometry::{Address, FIRST_USER, Geometry, Outcome, Refusal, Seq};
use header::read_header;
use recording_state::{Setup, Sizes, Stage, State};

// A session at its first command, whose elements start from an address, a number and a trail: of a fresh recording, or of one that is added to.
pub fn session_at(
    setup: Setup,
    header: Header,
    address: Address,
    number: Seq,
    trail: Trail,
) -> State
    ensures { result ≡ started_at setup header address number trail }
{
    State {
        setup,
        stage: Stage::OpeningHeaders,
        exchange: Exchange::unsent(),
        closed: false,
        ended: false,
        spent: false,
        copies: Copies::start(header),
        elements: Elements::start(header.last, address, number, trail),
    }
}

// That of a fresh recording.
fn fresh_session(setup: Setup, header: Header) -> State
    ensures { result ≡ fresh setup header }
{
    session_at(setup, header, Address(FIRST_USER), Seq(0), no_trail())
}

// A refused opening returns an ended session.
pub fn refuse_opening(refusal: Refusal) -> Outcome<State>
    ensures { outcome_said result ≡ open_refused (refusal_number refusal) }
{
    let session = fresh_session(Setup::default(), Header::default());
    (session.ended_by(refusal), Err(refusal))
}

// Whether D or W is none that a session can have.
pub fn is_misfit(sizes: Sizes) -> bool
    ensures { result ≡ is_misfit sizes.depth sizes.blocks }
{
    sizes.depth == 0 || sizes.blocks == 0 || MOST_BLOCKS < sizes.blocks
}

// D, W, of which a session holds W - 1, and T.
pub fn setup_of(sizes: Sizes) -> Setup
    ensures { result ≡ setup_of sizes.depth sizes.blocks sizes.tail }
{
    Setup {
        depth: sizes.depth,
        highest: sizes.blocks.saturating_sub(1),
        tail: sizes.tail,
    }
}

// Refusal 4 for the sizes, then 5; else a session with this header.
#[tactic(auto, unfolding(recording_state::specs::Open::open_with))]
fn open_with(sizes: Sizes, exhausted: bool, header: Header) -> Outcome<State>
    ensures { outcome_said result ≡ open_with sizes.depth sizes.blocks sizes.tail exhausted header }
{
    if is_misfit(sizes) {
        return refuse_opening(Refusal::Capacity);
    }
    if exhausted {
        return refuse_opening(Refusal::Exhausted);
    }
    (fresh_session(setup_of(sizes), header), Ok(()))
}

// On the newest header of the cartridge.
#[tactic(auto, unfolding(recording_state::specs::Open::open_of))]
pub fn open(g: Geometry, sizes: Sizes, header: &[u8]) -> Outcome<State>
    ensures { outcome_said result ≡ open_of g sizes.depth sizes.blocks sizes.tail header.now }
{
    match read_header(g, header) {
        Ok(old) => open_with(sizes, is_exhausted(old), renew(old)),
        Err(r) => refuse_opening(r),
    }
}

// On a cartridge that holds no valid header.
#[tactic(auto, unfolding(recording_state::specs::Open::open_blank_of))]
pub fn open_blank(g: Geometry, sizes: Sizes) -> Outcome<State>
    ensures { outcome_said result ≡ open_blank_of g sizes.depth sizes.blocks sizes.tail }
{
    match g.last() {
        Ok(last) => open_with(sizes, false, blank_header(last)),
        Err(r) => refuse_opening(r),
    }
}

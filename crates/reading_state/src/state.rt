// The state of a session.
use drive::Exchange;
use frame::{Header, Trail};
use geometry::{Address, Seq};

// The next address, and whether a LOCATE of it comes before the READ.
#[derive(Clone, Copy)]
pub struct Position {
    pub next: Address,
    pub locate: bool,
}

// A reading as it stands between two calls. C hands in its flags in every combination (`is_reading`), for which a type of states has no room.
#[derive(Clone, Copy)]
pub struct State {
    // What the newest header tells.
    pub told: Header,
    // Where reading goes on.
    pub position: Position,
    // The number of the element that is expected next.
    pub expected: Seq,
    // The filemarks delivered, and where the latest was.
    pub trail: Trail,
    // The last command, and how it stands with its reply.
    pub exchange: Exchange,
    // Whether EOD was read.
    pub finished: bool,
    // Whether a refusal of 8 or more has ended the session, or a refused opening gave it.
    pub ended: bool,
}

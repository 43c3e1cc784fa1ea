// The session that a host holds, and its calls (01, "Reading a cartridge"). Each is the call of a crate below on the session's state. 01,
// "Refused calls", has the refusals: 1 to 7 leave the session as it is, those from 8 on end it, and then every call is refused with 7.
ghost use Rattle.std.specs.Prelude.{◌≡◌};
ghost use Rattle.reading_state.specs.Open.{open_of};
ghost use Rattle.reading_state.specs.Fetch.{fetch_of};
ghost use Rattle.reading_state.specs.Reply.{reply_of};
ghost use Rattle.reading.specs.Reading.{opened_said, fetched_said, replied_said};

use drive::{Command, Reply};
use frame::Kind;
use geometry::{Geometry, Outcome};
use reading_state::State;

// A reading session. Each call takes it whole and gives it back.
#[derive(Clone, Copy)]
pub struct Reading {
    pub state: State,
}

// What a call on the state returned, for the session that holds it. `recording` has one for its own: one for both would take the wrapping as a
// closure at each call, or a trait with a law.
fn holding<T>(returned: Outcome<State, T>) -> Outcome<Reading, T>
    ensures session { result.0.state ≡ returned.0 }
    ensures answer { result.1 ≡ returned.1 }
{
    let (state, answer) = returned;
    (Reading { state }, answer)
}

impl Reading {
    // Opens a reading on the newest header of the cartridge, a frame of 33,280 bytes. Refused with 1 to 3; the session is then an ended one.
    pub fn open(g: Geometry, header: &[u8]) -> Outcome<Reading>
        ensures { opened_said result ≡ open_of g header.now }
    {
        holding(reading_opening::open(g, header))
    }

    // The command that was answered busy, once more; else the next command, or none once EOD was read. Refused with 7 while a reply is
    // awaited, with 12 where LAST is passed and no EOD was found.
    pub fn fetch(self) -> Outcome<Reading, Option<Command>>
        ensures { fetched_said result ≡ fetch_of self.state }
    {
        holding(reading_fetching::fetch(self.state))
    }

    // Brings the reply to the last command. A frame of 33,280 bytes is lent with every reply, and looked at only where a READ brought one. It
    // delivers nothing, a block (the first 32,768 bytes of that frame), a filemark, or EOD: then everything was delivered. Refused with 7 where
    // no reply is awaited, with 1 for a wrong length, with 8 where the drive could not lawfully give it, with 10 where an element is missing,
    // with 11 for a frame of some other use of the format, with 12 for 00/00/02.
    pub fn reply(self, reply: Reply, frame: &[u8]) -> Outcome<Reading, Option<Kind>>
        ensures { replied_said result ≡ reply_of self.state reply frame.now }
    {
        holding(reading_replying::reply(self.state, reply, frame))
    }
}

// What a reply changes, and what it is answered: a step for each case that `reading_replying` tells apart.
ghost use Rattle.std.specs.Prelude.{◌≡◌};
ghost use Rattle.reading_state.specs.Reply.{replied_said, delivering, wrapped, block, filemark, address_of};
ghost use Rattle.reading_state.specs.Reply.{repeated_of, moved_of, advanced_of, located_of, passed_over_of, marked_of, delivered_of, finished_of, jumped_of};
ghost use Rattle.reading_state.specs.State.{ended_of, is_at_end, end_of};

use crate::state::{Position, State};
use frame::{Kind, Trail, marked};
use geometry::{Address, HIGHEST_ADDRESS, Outcome, Seq, past_reserved, preceding};

// A number as an address. It wraps only in a session that no call returned.
fn wrapped(n: u64) -> Address
    ensures { result ≡ wrapped n }
{
    Address((n % ((HIGHEST_ADDRESS as u64) + 1)) as u32)
}

impl State {
    // Refusals from 8 on end the session.
    pub fn ended(self) -> State
        ensures { result ≡ ended_of self }
    {
        State {
            ended: true,
            ..self
        }
    }

    // Busy: the command is given once more.
    pub fn repeated(self) -> State
        ensures { result ≡ repeated_of self }
    {
        State {
            exchange: self.exchange.repeated(),
            ..self
        }
    }

    // The reply is taken in, and reading goes on at an address, with a LOCATE of it or without.
    fn moved(self, next: Address, locate: bool) -> State
        ensures { result ≡ moved_of self next locate }
    {
        State {
            exchange: self.exchange.replied(),
            position: Position { next, locate },
            ..self
        }
    }

    // The address of the command.
    fn address(self) -> Address
        ensures { result ≡ address_of self }
    {
        self.exchange.command.address()
    }

    // Reading goes on one address behind the command's.
    fn advanced(self) -> State
        ensures { result ≡ advanced_of self }
    {
        let next = Address(self.address().0.wrapping_add(1));
        self.moved(next, self.position.locate)
    }

    // The drive stands at the command's address.
    pub fn located(self) -> Outcome<State, Option<Kind>>
        ensures { replied_said result ≡ located_of self }
    {
        (self.moved(self.address(), false), Ok(None))
    }

    // The address is passed over.
    pub fn passed_over(self) -> Outcome<State, Option<Kind>>
        ensures { replied_said result ≡ passed_over_of self }
    {
        (self.advanced(), Ok(None))
    }

    // The expected element is delivered, and the next one expected, behind a trail.
    fn delivered(self, trail: Trail) -> State
        ensures { delivering result block ≡ delivered_of self trail block }
    {
        State {
            expected: Seq(self.expected.0.wrapping_add(1)),
            trail,
            ..self.advanced()
        }
    }

    // A block is delivered.
    pub fn delivered_block(self) -> Outcome<State, Option<Kind>>
        ensures { replied_said result ≡ delivered_of self self.trail block }
    {
        (self.delivered(self.trail), Ok(Some(Kind::Data)))
    }

    // A filemark is delivered, at the command's address.
    pub fn delivered_filemark(self) -> Outcome<State, Option<Kind>>
        ensures { replied_said result ≡ delivered_of self (marked_of self) filemark }
    {
        let trail = marked(self.trail, self.address());
        (self.delivered(trail), Ok(Some(Kind::Marker)))
    }

    // EOD ends reading.
    pub fn finished(self) -> Outcome<State, Option<Kind>>
        ensures { replied_said result ≡ finished_of self }
    {
        let session = State {
            finished: true,
            ..self.advanced()
        };
        (session, Ok(Some(Kind::Eod)))
    }

    // Nothing reads for 32 addresses: LOCATE behind them, or behind the second header group and its defect map.
    pub fn jumped(self) -> Outcome<State, Option<Kind>>
        ensures { replied_said result ≡ jumped_of self }
    {
        let next = wrapped(past_reserved(self.address(), 32));
        (self.moved(next, true), Ok(None))
    }

    // Whether the reading is at its end.
    pub fn is_at_end(self) -> bool
        ensures { result ≡ is_at_end self }
    {
        self.finished && !(self.ended || self.exchange.awaiting || self.exchange.again)
    }

    // The address of the EOD at which it ended.
    pub fn end_address(self) -> Address
        ensures { result ≡ end_of self }
    {
        preceding(self.position.next)
    }
}

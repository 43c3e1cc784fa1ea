// A reading session as numbers.
ghost use Rattle.std.specs.Prelude.{◌≡◌};
ghost use Rattle.exchange_twins.specs.ComesBack.{ComesBack};
ghost use Rattle.reading_twins.specs.Reading.{told_of, told_twin, is_reading, reading_state_of, reading_state_twin, checked_reading};

use exchange_twins::{AdrExchange, AdrTrail};
use frame::Header;
use geometry::{Address, Refusal, Seq};
use reading_state::{Position, State};

// What the header tells. C has a struct of its own for it beside that of a recording's header, of the same members.
#[repr(C)]
#[derive(Clone, Copy)]
pub struct AdrTold {
    pub last: u32,
    pub eod: u32,
    pub old: u32,
    pub update: u32,
    pub pass: u16,
}

// The next address, and whether a LOCATE of it comes first, as a flag.
#[repr(C)]
#[derive(Clone, Copy)]
pub struct AdrPosition {
    pub next: u32,
    pub locate: u8,
}

// A reading session's numbers. A host keeps them between calls and looks into none.
#[repr(C)]
#[derive(Clone, Copy)]
pub struct AdrReading {
    pub told: AdrTold,
    pub position: AdrPosition,
    pub expected: u32,
    pub trail: AdrTrail,
    pub exchange: AdrExchange,
    pub finished: u8,
    pub ended: u8,
}

impl From<AdrTold> for Header {
    ghost from_gives = { λ n h. h ≡ told_of n };

    fn from(n: AdrTold) -> Header {
        Header {
            last: Address(n.last),
            pass: n.pass,
            eod: Address(n.eod),
            old: Address(n.old),
            update: n.update,
        }
    }
}

impl From<Header> for AdrTold {
    ghost from_gives = { λ h n. n ≡ told_twin h };

    fn from(h: Header) -> AdrTold {
        AdrTold {
            last: h.last.0,
            eod: h.eod.0,
            old: h.old.0,
            update: h.update,
            pass: h.pass,
        }
    }
}

impl AdrReading {
    // Whether the numbers are a session's.
    #[tactic(auto, unfolding(crate::specs::Reading::is_reading))]
    pub fn is_reading(self) -> bool
        ensures { result ≡ is_reading self }
    {
        self.exchange.is_exchange()
            && self.position.locate <= 1
            && self.finished <= 1
            && self.ended <= 1
    }

    // The session that the numbers stand for, where they are one's; other numbers have some value all the same, so that calls go by `try_from`. The
    // contract also says that no session is lost on the way to its numbers and back.
    #[tactic(auto, unfolding(crate::specs::Reading::reading_state_of), using(crate::proofs::Inverse::reading_comes_back))]
    pub fn reading_state(self) -> State
        ensures { (result ≡ reading_state_of self) × ComesBack is_reading reading_state_of reading_state_twin }
    {
        State {
            told: self.told.into(),
            position: Position {
                next: Address(self.position.next),
                locate: self.position.locate == 1,
            },
            expected: Seq(self.expected),
            trail: self.trail.into(),
            exchange: self.exchange.exchange(),
            finished: self.finished == 1,
            ended: self.ended == 1,
        }
    }
}

impl From<State> for AdrReading {
    ghost from_gives = { λ s n. n ≡ reading_state_twin s };

    #[tactic(auto, unfolding(crate::specs::Reading::reading_state_twin))]
    fn from(s: State) -> AdrReading {
        AdrReading {
            told: s.told.into(),
            position: AdrPosition {
                next: s.position.next.0,
                locate: s.position.locate.into(),
            },
            expected: s.expected.0,
            trail: s.trail.into(),
            exchange: s.exchange.into(),
            finished: s.finished.into(),
            ended: s.ended.into(),
        }
    }
}

// Numbers that are no session's are refused with 7.
impl TryFrom<AdrReading> for State {
    type Error = Refusal;

    ghost try_from_gives = { λ n r. r ≡ checked_reading n };

    // In line: every call on a session from C goes through it, and would copy the session into the result and out of it.
    #[inline(always)]
    fn try_from(n: AdrReading) -> Result<State, Refusal> {
        if !n.is_reading() {
            return Err(Refusal::Phase);
        }
        Ok(n.reading_state())
    }
}

// What the calls of a reading session return, as numbers.
ghost use Rattle.std.specs.Prelude.{◌≡◌};
ghost use Rattle.reading.specs.Reading.{opened_said, fetched_said, replied_said};
ghost use Rattle.reading_answers.specs.Reading.{opened_twin, without_command, unknown_fetch, fetched_twin, unknown_reply, replied_twin};

use drive::Command;
use exchange_twins::AdrCommand;
use frame::Kind;
use geometry::{Outcome, Refusal};
use numbers::{BLOCK, COMMAND, END, FILEMARK, NOTHING, REFUSED, verdict_number};
use reading::Reading;
use reading_twins::AdrReading;

// The session and the number of the refusal, 0 for none.
#[repr(C)]
#[derive(Clone, Copy)]
pub struct AdrReadOpened {
    pub session: AdrReading,
    pub number: u8,
}

// What a fetch answers: a command, the end, or refused with a number. C has a struct for each session's fetches, so this one is not generic.
#[repr(C)]
#[derive(Clone, Copy)]
pub struct AdrReadFetched {
    pub session: AdrReading,
    pub command: AdrCommand,
    pub answer: u8,
    pub number: u8,
}

// What a reply is answered: nothing, a block, a filemark, the end, or refused with a number.
#[repr(C)]
#[derive(Clone, Copy)]
pub struct AdrReadReplied {
    pub session: AdrReading,
    pub answer: u8,
    pub number: u8,
}

impl From<Outcome<Reading>> for AdrReadOpened {
    ghost from_gives = { λ r n. n ≡ opened_twin (opened_said r) };

    fn from(returned: Outcome<Reading>) -> AdrReadOpened {
        let (session, verdict) = returned;
        AdrReadOpened {
            session: session.state.into(),
            number: verdict_number(verdict),
        }
    }
}

impl From<Outcome<Reading, Option<Command>>> for AdrReadFetched {
    ghost from_gives = { λ r n. n ≡ fetched_twin (fetched_said r) };

    fn from(returned: Outcome<Reading, Option<Command>>) -> AdrReadFetched {
        let (session, answer) = returned;
        let session = session.state.into();
        match answer {
            Ok(Some(c)) => AdrReadFetched {
                session,
                command: c.into(),
                answer: COMMAND,
                number: 0,
            },
            Ok(None) => AdrReadFetched::without(session, END, 0),
            Err(r) => AdrReadFetched::without(session, REFUSED, r.number()),
        }
    }
}

impl AdrReadFetched {
    // An answer without a command.
    fn without(session: AdrReading, answer: u8, number: u8) -> AdrReadFetched
        ensures { result ≡ without_command session answer number }
    {
        AdrReadFetched {
            session,
            command: AdrCommand {
                code: 0,
                address: 0,
            },
            answer,
            number,
        }
    }

    // Numbers that are no session's.
    pub fn unknown(session: AdrReading) -> AdrReadFetched
        ensures { result ≡ unknown_fetch session }
    {
        AdrReadFetched::without(session, REFUSED, Refusal::Phase.number())
    }
}

impl From<Outcome<Reading, Option<Kind>>> for AdrReadReplied {
    ghost from_gives = { λ r n. n ≡ replied_twin (replied_said r) };

    fn from(returned: Outcome<Reading, Option<Kind>>) -> AdrReadReplied {
        let (session, delivery) = returned;
        let (answer, number) = match delivery {
            Ok(None) => (NOTHING, 0),
            Ok(Some(Kind::Data)) => (BLOCK, 0),
            Ok(Some(Kind::Marker)) => (FILEMARK, 0),
            Ok(Some(Kind::Eod)) => (END, 0),
            Err(r) => (REFUSED, r.number()),
        };
        AdrReadReplied {
            session: session.state.into(),
            answer,
            number,
        }
    }
}

impl AdrReadReplied {
    // Numbers that are no session's.
    pub fn unknown(session: AdrReading) -> AdrReadReplied
        ensures { result ≡ unknown_reply session }
    {
        AdrReadReplied {
            session,
            answer: REFUSED,
            number: Refusal::Phase.number(),
        }
    }
}

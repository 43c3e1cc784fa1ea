// What the calls of a recording session return, as numbers.
ghost use Rattle.std.specs.Prelude.{◌≡◌};
ghost use Rattle.recording.specs.Recording.{outcome_said};
ghost use Rattle.recording_state.specs.Answer.{answer_said};
ghost use Rattle.recording_twins.specs.Recording.{recording_state_twin};
ghost use Rattle.recording_answers.specs.Recording.{outcome_twin, unknown, without_command, unknown_fetch, fetched_twin};

use exchange_twins::AdrCommand;
use geometry::{Outcome, Refusal};
use numbers::{COMMAND, DONE, IDLE, REFUSED, verdict_number};
use recording::{Answer, Recording};
use recording_twins::AdrRecording;

// The session and the number of the refusal, 0 for none.
#[repr(C)]
#[derive(Clone, Copy)]
pub struct AdrRecordOutcome {
    pub session: AdrRecording,
    pub number: u8,
}

// What a fetch answers: a command, idle, done, or refused with a number.
#[repr(C)]
#[derive(Clone, Copy)]
pub struct AdrRecordFetched {
    pub session: AdrRecording,
    pub command: AdrCommand,
    pub answer: u8,
    pub number: u8,
}

impl From<Outcome<Recording>> for AdrRecordOutcome {
    ghost from_gives = { λ r n. n ≡ outcome_twin (outcome_said r) };

    fn from(returned: Outcome<Recording>) -> AdrRecordOutcome {
        let (session, verdict) = returned;
        AdrRecordOutcome {
            session: session.state.into(),
            number: verdict_number(verdict),
        }
    }
}

impl AdrRecordOutcome {
    // Numbers that are no session's.
    pub fn unknown(session: AdrRecording) -> AdrRecordOutcome
        ensures { result ≡ unknown session }
    {
        AdrRecordOutcome {
            session,
            number: Refusal::Phase.number(),
        }
    }
}

impl From<Outcome<Recording, Answer>> for AdrRecordFetched {
    ghost from_gives = { λ r n. n ≡ fetched_twin (answer_said r.1) (recording_state_twin r.0.state) };

    fn from(returned: Outcome<Recording, Answer>) -> AdrRecordFetched {
        let (session, answer) = returned;
        let session = session.state.into();
        match answer {
            Ok(Answer::Command(c)) => AdrRecordFetched {
                session,
                command: c.into(),
                answer: COMMAND,
                number: 0,
            },
            Ok(Answer::Idle) => AdrRecordFetched::without(session, IDLE, 0),
            Ok(Answer::Done) => AdrRecordFetched::without(session, DONE, 0),
            Err(r) => AdrRecordFetched::without(session, REFUSED, r.number()),
        }
    }
}

impl AdrRecordFetched {
    // An answer without a command.
    fn without(session: AdrRecording, answer: u8, number: u8) -> AdrRecordFetched
        ensures { result ≡ without_command session answer number }
    {
        AdrRecordFetched {
            session,
            command: AdrCommand {
                code: 0,
                address: 0,
            },
            answer,
            number,
        }
    }

    // Numbers that are no session's.
    pub fn unknown(session: AdrRecording) -> AdrRecordFetched
        ensures { result ≡ unknown_fetch session }
    {
        AdrRecordFetched::without(session, REFUSED, Refusal::Phase.number())
    }
}

// What is due, by the session's stage.
ghost use Rattle.std.specs.Prelude.{◌≡◌, Ok};
ghost use Rattle.recording_state.specs.Answer.{answer_said};
ghost use Rattle.recording_state.specs.Due.{header_due, element_due, decision_of};

use geometry::Refusal;
use recording_state::{Answer, Stage, State};

// What is due for elements and EOD.
fn element_due(s: State) -> Result<Answer, Refusal>
    ensures { answer_said result ≡ element_due s }
{
    let due = element_rules::due(s.elements, s.setup.depth, s.setup.tail)?;
    Ok(due.map_or(Answer::Idle, Answer::Command))
}

// What is due for the header copies.
fn header_due(s: State) -> Answer
    ensures { answer_said (Ok result) ≡ header_due s }
{
    Answer::Command(s.copies.command(s.setup.depth))
}

// What a fetch answers, once the session is found able to: the same command after busy, else what is due in this stage.
#[tactic(auto, unfolding(recording_state::specs::Due::decision_of))]
pub(crate) fn decision(s: State) -> Result<Answer, Refusal>
    ensures { answer_said result ≡ decision_of s }
{
    if s.exchange.again {
        return Ok(Answer::Command(s.exchange.command));
    }
    match s.stage {
        Stage::OpeningHeaders | Stage::ClosingHeaders => Ok(header_due(s)),
        Stage::Elements => element_due(s),
        Stage::Done => Ok(Answer::Done),
    }
}

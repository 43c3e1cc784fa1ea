// Fetching the next command. The public calls are the methods of `reading`.
#![tactic(auto)]

ghost use Rattle.std.specs.Prelude.{◌≡◌};
ghost use Rattle.drive.specs.Command.{command_said};
ghost use Rattle.reading_state.specs.Fetch.{command_of, fetched_said, sending, fetch_of};

use drive::{Command, Exchange};
use geometry::{Address, Outcome, Refusal, SECOND_GROUP, SECOND_USER};
use reading_state::State;

// The command that is due where the next address is not above LAST.
#[tactic(auto, unfolding(reading_state::specs::Fetch::command_of))]
fn due(s: State) -> Command
    ensures { command_said result ≡ command_of s }
{
    let next = s.position.next;
    if s.position.locate {
        return Command::Locate(next);
    }
    if next.0 == SECOND_GROUP {
        return Command::Locate(Address(SECOND_USER));
    }
    Command::Read(next)
}

// The command goes out, and its reply is awaited.
fn send(s: State, c: Command) -> Outcome<State, Option<Command>>
    ensures { fetched_said result ≡ sending s c }
{
    let session = State {
        exchange: Exchange::sent(c),
        ..s
    };
    (session, Ok(Some(c)))
}

// The command that was answered busy, once more; else the next command, or none once EOD was read.
#[tactic(auto, unfolding(reading_state::specs::Fetch::fetch_of))]
pub fn fetch(s: State) -> Outcome<State, Option<Command>>
    ensures { fetched_said result ≡ fetch_of s }
{
    if s.ended || s.exchange.awaiting {
        return (s, Err(Refusal::Phase));
    }
    if s.exchange.again {
        return send(s, s.exchange.command);
    }
    if s.finished {
        return (s, Ok(None));
    }
    if s.told.last < s.position.next {
        return (s.ended(), Err(Refusal::NotFound));
    }
    send(s, due(s))
}

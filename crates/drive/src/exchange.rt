// What a session has asked of the drive: the host fetches a command and brings its reply, in turn.
ghost use Rattle.std.specs.Prelude.{◌≡◌};
ghost use Rattle.drive.specs.Exchange.{unsent, sent_of, replied_of, repeated_of};

use crate::command::Command;

// The last command, and what is to come of it. Two flags, and no enum: C hands them in in every combination (`is_exchange`).
#[derive(Clone, Copy)]
pub struct Exchange {
    // The last command; before the first one it means nothing.
    pub command: Command,
    // Whether its reply is awaited.
    pub awaiting: bool,
    // Whether it was answered busy and is to be given again.
    pub again: bool,
}

impl Exchange {
    // Before the first command.
    pub fn unsent() -> Exchange
        ensures { result ≡ unsent }
    {
        Exchange {
            command: Command::ReadPosition,
            awaiting: false,
            again: false,
        }
    }

    // A command goes out, and its reply is awaited.
    pub fn sent(command: Command) -> Exchange
        ensures { result ≡ sent_of command }
    {
        Exchange {
            command,
            awaiting: true,
            again: false,
        }
    }

    // The reply is taken in.
    pub fn replied(self) -> Exchange
        ensures { result ≡ replied_of self }
    {
        Exchange {
            awaiting: false,
            ..self
        }
    }

    // Answered busy: the command is to be given once more.
    pub fn repeated(self) -> Exchange
        ensures { result ≡ repeated_of self }
    {
        Exchange {
            awaiting: false,
            again: true,
            ..self
        }
    }
}

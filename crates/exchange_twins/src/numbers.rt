// Flags, commands and exchanges as numbers.
ghost use Rattle.std.specs.Prelude.{◌≡◌};
ghost use Rattle.drive.specs.Command.{command_by};
ghost use Rattle.exchange_twins.specs.Numbers.{is_command, command_twin, is_exchange, exchange_of, exchange_twin};

use drive::{Command, Exchange, LOCATE, READ, READ_POSITION, WRITE};
use geometry::Address;

// A command: its operation code and its address, 0 for READ POSITION.
#[repr(C)]
#[derive(Clone, Copy)]
pub struct AdrCommand {
    pub code: u8,
    pub address: u32,
}

// An exchange: its command, and whether the reply is awaited and whether it is given once more, as flags.
#[repr(C)]
#[derive(Clone, Copy)]
pub struct AdrExchange {
    pub command: AdrCommand,
    pub awaiting: u8,
    pub again: u8,
}

impl AdrCommand {
    // Whether a command has this code and this address.
    fn is_command(self) -> bool
        ensures { result ≡ is_command self }
    {
        match self.code {
            READ | WRITE | LOCATE => true,
            READ_POSITION => self.address == 0,
            _ => false,
        }
    }

    // The command that has these numbers.
    fn command(self) -> Command
        ensures { result ≡ command_by self.code self.address }
    {
        let at = Address(self.address);
        match self.code {
            READ => Command::Read(at),
            WRITE => Command::Write(at),
            LOCATE => Command::Locate(at),
            _ => Command::ReadPosition,
        }
    }
}

impl From<Command> for AdrCommand {
    ghost from_gives = { λ c n. n ≡ command_twin c };

    fn from(c: Command) -> AdrCommand {
        AdrCommand {
            code: c.code(),
            address: c.address().0,
        }
    }
}

impl AdrExchange {
    // Whether the numbers are an exchange.
    pub fn is_exchange(self) -> bool
        ensures { result ≡ is_exchange self }
    {
        self.command.is_command() && self.awaiting <= 1 && self.again <= 1
    }

    // The exchange that has these numbers, where they are one. No `From`: numbers that are none have some value all the same.
    pub fn exchange(self) -> Exchange
        ensures { result ≡ exchange_of self }
    {
        Exchange {
            command: self.command.command(),
            awaiting: self.awaiting == 1,
            again: self.again == 1,
        }
    }
}

impl From<Exchange> for AdrExchange {
    ghost from_gives = { λ x n. n ≡ exchange_twin x };

    fn from(x: Exchange) -> AdrExchange {
        AdrExchange {
            command: x.command.into(),
            awaiting: x.awaiting.into(),
            again: x.again.into(),
        }
    }
}

// The commands that a session hands to the host.
ghost use Rattle.std.specs.Prelude.{◌≡◌};
ghost use Rattle.drive.specs.Command.{command_code, command_address};

use geometry::Address;

// A command, with the address that it is about.
#[derive(Clone, Copy, PartialEq, Eq)]
pub enum Command {
    // Reads the frame at this address, where the drive stands.
    Read(Address),
    // Writes the frame that the fetch filled; it is meant for this address.
    Write(Address),
    // Moves to this address and empties the drive's buffer.
    Locate(Address),
    // Asks how many frames are still buffered.
    ReadPosition,
}

// The operation codes, table 4-1 of the standard: READ.
pub const READ: u8 = 0x08;

// WRITE.
pub const WRITE: u8 = 0x0A;

// LOCATE.
pub const LOCATE: u8 = 0x2B;

// READ POSITION.
pub const READ_POSITION: u8 = 0x34;

impl Command {
    // Its operation code.
    pub fn code(self) -> u8
        ensures { result ≡ command_code self }
    {
        match self {
            Command::Read(_) => READ,
            Command::Write(_) => WRITE,
            Command::Locate(_) => LOCATE,
            Command::ReadPosition => READ_POSITION,
        }
    }

    // Its address; READ POSITION has none and gives 0.
    pub fn address(self) -> Address
        ensures { result ≡ command_address self }
    {
        match self {
            Command::Read(a) | Command::Write(a) | Command::Locate(a) => a,
            Command::ReadPosition => Address(0),
        }
    }
}

// Which copy is written next, and the command that is due.
ghost use Rattle.std.specs.Prelude.{◌≡◌};
ghost use Rattle.drive.specs.Command.{command_said};
ghost use Rattle.copies.specs.Copies.{start_of, command_of};

use drive::Command;
use frame::Header;
use geometry::{GROUP_COPIES, header_address};

// The copies of one header, and how far the drive is with them. C hands the numbers and the flag in in every combination (`is_recording`).
#[derive(Clone, Copy)]
pub struct Copies {
    // What every copy carries.
    pub header: Header,
    // The next copy to be written, by its group and its number there, both from 0.
    pub group: u8,
    pub copy: u8,
    // Copies of this group that the drive has taken and that are not known to be on tape.
    pub outstanding: u8,
    // Copies of both groups that are known to be on tape.
    pub confirmed: u8,
    // Whether a LOCATE comes before the next copy. C hands in either with every copy.
    pub locate: bool,
}

impl Copies {
    // Before the first copy.
    pub fn start(header: Header) -> Copies
        ensures { result ≡ start_of header }
    {
        Copies {
            header,
            group: 0,
            copy: 0,
            outstanding: 0,
            confirmed: 0,
            locate: true,
        }
    }

    // The command that is due, for a drive that buffers `depth` frames.
    #[tactic(auto, unfolding(crate::specs::Copies::command_of))]
    pub fn command(self, depth: u8) -> Command
        ensures { command_said result ≡ command_of depth self }
    {
        let address = header_address(self.group, self.copy);
        if self.locate {
            return Command::Locate(address);
        }
        if self.copy < GROUP_COPIES && self.outstanding < depth {
            return Command::Write(address);
        }
        Command::ReadPosition
    }
}

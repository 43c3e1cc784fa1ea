// What is counted of a recording's replies.
use drive::{Command, GOOD, Reply, WRITE_ERROR};

// Frames and errors of one kind, of elements or of headers.
#[derive(Clone, Copy, Default)]
pub struct Tally {
    // WRITEs that the drive took: those answered good.
    pub frames: u32,
    // Write errors.
    pub errors: u32,
}

impl Tally {
    // Counts one reply more, to this command.
    pub fn count(&mut self, command: Command, reply: Reply) {
        match (command, reply.meaning()) {
            (Command::Write(_), GOOD) => self.frames = self.frames.wrapping_add(1),
            (Command::Write(_) | Command::ReadPosition, WRITE_ERROR) => {
                self.errors = self.errors.wrapping_add(1);
            }
            _ => {}
        }
    }
}

// How refusals, commands and sense triples are printed, and the session of a call, whose refusal is printed.
use drive::{Command, Reply};
use geometry::{Outcome, Refusal};
use std::{fmt, io};

// A value of the layer as the edges print it: the layer itself prints nothing.
#[derive(Clone, Copy)]
pub struct Shown<T>(pub T);

// A refusal by its number.
impl fmt::Display for Shown<Refusal> {
    fn fmt<W: fmt::Write>(&self, f: &mut fmt::Formatter<W>) -> fmt::Result {
        write!(f, "refused {}", self.0.number())
    }
}

// A command's name and address.
impl fmt::Display for Shown<Command> {
    fn fmt<W: fmt::Write>(&self, f: &mut fmt::Formatter<W>) -> fmt::Result {
        match self.0 {
            Command::Read(a) => write!(f, "READ {}", a.0),
            Command::Write(a) => write!(f, "WRITE {}", a.0),
            Command::Locate(a) => write!(f, "LOCATE {}", a.0),
            Command::ReadPosition => write!(f, "READ POSITION"),
        }
    }
}

// The sense triple of a reply.
impl fmt::Display for Shown<Reply> {
    fn fmt<W: fmt::Write>(&self, f: &mut fmt::Formatter<W>) -> fmt::Result {
        write!(
            f,
            "{:02x}/{:02x}/{:02x}",
            self.0.key, self.0.asc, self.0.ascq
        )
    }
}

// The session that a call gave back. A refusal has a line of its own.
pub fn session_of<S: Drop>(rt: &impl Print, returned: Outcome<S>) -> io::Result<S> {
    let (session, verdict) = returned;
    if let Err(refusal) = verdict {
        println!(rt; "{}", Shown(refusal))?;
    }
    Ok(session)
}

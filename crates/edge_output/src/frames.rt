// A command as it goes to the drive, with the frame of a WRITE.
use crate::printing::Shown;
use buffer::{be16_at, be32_at};
use drive::Command;
use frame::{
    AUX_START, DATA_TYPE, EOD_TYPE, HEADER_TYPE, KIND_AT, MARKER_TYPE, NO_MARKER, OLD_AT, UPDATE_AT,
};
use std::fmt;

// Where fields stand in the frame: a header's pass and EOD address in its data, the others in the AUX.
const HEADER_PASS_AT: u16 = 22;

const EOD_AT: u16 = 32;

const PASS_AT: u16 = AUX_START + 22;

const SEQ_AT: u16 = AUX_START + 44;

const FILEMARKS_AT: u16 = AUX_START + 192;

const MARKER_AT: u16 = AUX_START + 200;

// A command that a fetch gave, and the frame that it was lent.
#[derive(Clone, Copy)]
pub struct Sent<'a> {
    pub command: Command,
    pub frame: &'a [u8],
}

impl fmt::Display for Sent<'_> {
    fn fmt<W: fmt::Write>(&self, f: &mut fmt::Formatter<W>) -> fmt::Result {
        write!(f, "{}", Shown(self.command))?;
        if matches!(self.command, Command::Write(_)) {
            write_frame(f, self.frame)?;
        }
        Ok(())
    }
}

// The kind of a frame and what it holds; a header is no `Kind`.
fn write_frame<W: fmt::Write>(f: &mut fmt::Formatter<W>, frame: &[u8]) -> fmt::Result {
    match be16_at(frame, KIND_AT) {
        HEADER_TYPE => write_header(f, frame)?,
        DATA_TYPE => write_element(f, " block", frame)?,
        MARKER_TYPE => write_element(f, " filemark", frame)?,
        EOD_TYPE => write_element(f, " EOD", frame)?,
        _ => write_element(f, "", frame)?,
    }
    // An old end other than 0, in a frame of any kind.
    match be32_at(frame, OLD_AT) {
        0 => Ok(()),
        old => write!(f, ", old end {old}"),
    }
}

fn write_header<W: fmt::Write>(f: &mut fmt::Formatter<W>, frame: &[u8]) -> fmt::Result {
    write!(f, " header")?;
    write_pass(f, be16_at(frame, HEADER_PASS_AT))?;
    let count = be32_at(frame, UPDATE_AT);
    let eod = be32_at(frame, EOD_AT);
    write!(f, ", count {count}, EOD {eod}")
}

// The number and pass of an element or EOD, the filemarks before it and the latest marker's address.
fn write_element<W: fmt::Write>(
    f: &mut fmt::Formatter<W>,
    name: &str,
    frame: &[u8],
) -> fmt::Result {
    write!(f, "{name} {}", be32_at(frame, SEQ_AT))?;
    write_pass(f, be16_at(frame, PASS_AT))?;
    write!(f, ", filemarks {}", be32_at(frame, FILEMARKS_AT))?;
    match be32_at(frame, MARKER_AT) {
        NO_MARKER => Ok(()),
        marker => write!(f, ", latest at {marker}"),
    }
}

// A pass other than 1.
fn write_pass<W: fmt::Write>(f: &mut fmt::Formatter<W>, pass: u16) -> fmt::Result {
    match pass {
        1 => Ok(()),
        _ => write!(f, ", pass {pass}"),
    }
}

// Refused openings.
use crate::calls::{SIZES, add_refused};
use crate::readings::{located, newest_header, read_none};
use edge_output::{busy, end_of_medium};
use frame::Kind;
use recording::Sizes;
use std::io;

// Readings that are not at their end.
pub fn no_end(rt: &impl Print) -> io::Result<()> {
    println!(rt; "no end to add at: refused, a reply awaited, before EOD, busy")?;
    let h = newest_header(3, 10, 4);
    let mut r = located(rt, h)?;
    r.play_sense(end_of_medium())?;
    add_refused(&r, SIZES)?;
    r = located(rt, h)?;
    r.look()?;
    add_refused(&r, SIZES)?;
    add_refused(&located(rt, h)?, SIZES)?;
    r = located(rt, h)?;
    r.play_sense(busy())?;
    add_refused(&r, SIZES)
}

// Each opening has one fault less than the one before.
pub fn order(rt: &impl Print) -> io::Result<()> {
    println!(rt;
        "adding, refused with 7 before 4 before 5 before 13: depth 0, update count 4,294,967,294, EOD 0"
    )?;
    let h = newest_header(3, 0, 4294967294);
    let no_depth = Sizes { depth: 0, ..SIZES };
    add_refused(&located(rt, h)?, no_depth)?;
    let r = read_none(rt, h)?;
    add_refused(&r, no_depth)?;
    add_refused(&r, SIZES)?;
    add_refused(&read_none(rt, newest_header(3, 0, 4294967293))?, SIZES)
}

// An EOD below the header's EOD address, which is passed over, and one above it.
pub fn elsewhere(rt: &impl Print) -> io::Result<()> {
    println!(rt; "adding with EOD at 12 where the header has 11")?;
    let mut r = read_none(rt, newest_header(3, 11, 4))?;
    r.play_unreadable()?;
    r.play_element(Kind::Eod, 0, 0)?;
    add_refused(&r, SIZES)
}

// Windows that no opening takes.
pub fn windows(rt: &impl Print) -> io::Result<()> {
    println!(rt; "adding with a window of 0 and of 65 blocks")?;
    let r = read_none(rt, newest_header(3, 10, 4))?;
    for blocks in [0, 65] {
        add_refused(&r, Sizes { blocks, ..SIZES })?;
    }
    Ok(())
}

// The highest pass and update count that may be added to, and an update count that may not.
use crate::calls::{SIZES, add_block, add_refused};
use crate::readings::{newest_header, read_none, read_two};
use std::io;

// One more addition has room in both counts.
pub fn highest(rt: &impl Print) -> io::Result<()> {
    println!(rt; "adding with pass 65,534 and update count 4,294,967,293")?;
    add_block(&read_two(rt, newest_header(65534, 12, 4294967293))?)
}

// The update count can go no higher.
pub fn exhausted(rt: &impl Print) -> io::Result<()> {
    println!(rt; "adding with update count 4,294,967,294")?;
    add_refused(&read_none(rt, newest_header(3, 10, 4294967294))?, SIZES)
}

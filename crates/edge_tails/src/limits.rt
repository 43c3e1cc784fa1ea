// How far elements go, and where EOD goes once the others are given up.
use crate::start::{at_2560, near_end};
use frame::DATA_LENGTH;
use std::io;

// A block at 2,989, LOCATE 3,000; then only close is accepted. An element finds no room at 3,000, and EOD goes there.
pub fn behind_gap(rt: &impl Print) -> io::Result<()> {
    println!(rt; "tail of 1: no room for an element at 3,000")?;
    let mut window = [0u8; 4 * DATA_LENGTH];
    let mut r = near_end(rt, &mut window, 1, 174)?;
    r.play_good(4)?;
    r.look()?;
    r.look()?;
    r.accept_filemark()?;
    r.finish(2)
}

// A block at 2,989. An element finds no room behind it, and EOD goes to 3,000.
pub fn before_gap(rt: &impl Print) -> io::Result<()> {
    println!(rt; "tail of 11: no room for an element behind 2,989")?;
    let mut window = [0u8; 4 * DATA_LENGTH];
    let mut r = near_end(rt, &mut window, 11, 174)?;
    r.play_good(3)?;
    r.look()?;
    r.finish(3)
}

// The same where close was called before, and is called twice behind.
pub fn closed_before(rt: &impl Print) -> io::Result<()> {
    println!(rt; "tail of 11: closed, closed again, and a third time")?;
    let mut window = [0u8; 4 * DATA_LENGTH];
    let mut r = near_end(rt, &mut window, 11, 174)?;
    r.close()?;
    r.play_good(3)?;
    r.look()?;
    r.close()?;
    r.finish(3)
}

// An error at 2,560, with a target one past the limit of elements.
pub fn target_refused(rt: &impl Print) -> io::Result<()> {
    println!(rt; "tail of 255: a target of 2,746")?;
    let mut window = [0u8; 4 * DATA_LENGTH];
    let mut r = at_2560(rt, &mut window, 255)?;
    r.play_error(2, 2560, 186)?;
    r.finish(3)
}

// The same with a target at the limit: a block at 2,745.
pub fn target_at_limit(rt: &impl Print) -> io::Result<()> {
    println!(rt; "tail of 255: a target of 2,745")?;
    let mut window = [0u8; 4 * DATA_LENGTH];
    let mut r = at_2560(rt, &mut window, 255)?;
    r.play_error(2, 2560, 185)?;
    r.play_good(3)?;
    r.look()?;
    r.finish(2)
}

// Blocks at 2,985, the last error's target, and at 2,986. The target of an error that was got over counts no more.
pub fn stale_target(rt: &impl Print) -> io::Result<()> {
    println!(rt; "tail of 14: EOD goes behind the last block, and not to the last error's target")?;
    let mut window = [0u8; 4 * DATA_LENGTH];
    let mut r = near_end(rt, &mut window, 14, 170)?;
    r.accept_block()?;
    r.play_good(4)?;
    r.look()?;
    r.finish(2)
}

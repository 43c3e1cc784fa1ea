// Where no room is left for EOD either, and where there is no tail.
use crate::start::near_end;
use edge_output::{cartridge, volume_overflow};
use edge_recorder::Recorder;
use frame::DATA_LENGTH;
use std::io;

// Close, and what is fetched behind it.
fn close_and_look(r: &mut Recorder<'_, impl Print>) -> io::Result<()> {
    r.close()?;
    r.look()
}

// A block fails at 2,989 with skip 255, and its target is past the tape's end for EOD too.
pub fn target_above_end(rt: &impl Print) -> io::Result<()> {
    println!(rt; "tail of 1: a target of 3,244, above the tape's end")?;
    let mut window = [0u8; 4 * DATA_LENGTH];
    let mut r = near_end(rt, &mut window, 1, 174)?;
    r.play_error(2, 2989, 255)?;
    close_and_look(&mut r)?;
    close_and_look(&mut r)
}

// A block at 2,989; EOD fails on the last frame of the tape.
pub fn eod_fails(rt: &impl Print) -> io::Result<()> {
    println!(rt; "tail of 1: an error of EOD at 3,000")?;
    let mut window = [0u8; 4 * DATA_LENGTH];
    let mut r = near_end(rt, &mut window, 1, 174)?;
    r.play_good(4)?;
    r.look()?;
    r.close()?;
    r.play_error(1, 3000, 1)?;
    close_and_look(&mut r)
}

// Three blocks, at 10, at 11 and none.
pub fn tape_ends(rt: &impl Print) -> io::Result<()> {
    println!(rt; "tail of 2: the tape ends before 12, and has no room for EOD")?;
    let mut window = [0u8; 4 * DATA_LENGTH];
    let mut r = Recorder::open(rt, &mut window, cartridge(1000, 12), 4, 2)?;
    r.accept_blocks(3)?;
    r.play_headers()?;
    r.play_good(3)?;
    r.play(volume_overflow())?;
    r.play_good(1)?;
    r.look()?;
    close_and_look(&mut r)?;
    close_and_look(&mut r)
}

// Three blocks, at 2,989, at 3,000 and none.
pub fn no_tail(rt: &impl Print) -> io::Result<()> {
    println!(rt; "no tail: refused for good")?;
    let mut window = [0u8; 4 * DATA_LENGTH];
    let mut r = near_end(rt, &mut window, 0, 174)?;
    r.accept_block()?;
    r.play_good(6)?;
    r.look()?;
    close_and_look(&mut r)
}

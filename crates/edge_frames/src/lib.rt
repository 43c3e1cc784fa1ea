// Recordings whose frames are counted and set beside the most that the drive can take, played and printed.
#![tactic(auto)]

mod calls;
mod element_errors;
mod header_errors;
mod most;

use frame::DATA_LENGTH;
use std::io;

fn three_blocks(rt: &impl Print) -> io::Result<()> {
    let mut window = [0u8; 3 * DATA_LENGTH];
    element_errors::both_outstanding(rt, &mut window)?;
    element_errors::told_at_write(rt, &mut window)?;
    element_errors::eod_alone(rt, &mut window)
}

fn two_blocks(rt: &impl Print) -> io::Result<()> {
    let mut window = [0u8; 2 * DATA_LENGTH];
    element_errors::two_blocks(rt, &mut window)
}

fn play_widest(rt: &impl Print, window: &mut [u8]) -> io::Result<()> {
    element_errors::one_outstanding(rt, window)?;
    element_errors::all_outstanding(rt, window)?;
    header_errors::first_of_five(rt, window)?;
    header_errors::first_of_one(rt, window)
}

fn widest(rt: &impl Print) -> io::Result<()> {
    let mut window = [0u8; 64 * DATA_LENGTH];
    play_widest(rt, &mut window)
}

// Each part with windows of one width.
pub fn play_all(rt: &impl Print) -> io::Result<()> {
    three_blocks(rt)?;
    two_blocks(rt)?;
    widest(rt)?;
    most::print_all(rt)
}

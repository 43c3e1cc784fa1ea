// Errors of header copies, in recordings of no element.
use crate::calls::{finish, open, play_error};
use edge_recorder::Recorder;
use std::io;

// An error at 5 behind so many commands, and so many behind its LOCATE up to LOCATE 10, of which the first are printed.
fn play_first(
    r: &mut Recorder<'_, impl Print>,
    before: u8,
    shown: u8,
    hidden: u8,
) -> io::Result<()> {
    play_error(r, before, 5)?;
    r.play_good(shown)?;
    r.skip_good(hidden)?;
    r.close()?;
    finish(r, 3, 0)
}

// Copies at 5 to 9 and at 6 to 9.
pub fn first_of_five(rt: &impl Print, window: &mut [u8]) -> io::Result<()> {
    println!(rt; "D = 5: the first copy of the opening headers fails")?;
    play_first(&mut open(rt, window, 5, 64, 0)?, 6, 5, 7)
}

// Copies at 5 and at 6, and the others.
pub fn first_of_one(rt: &impl Print, window: &mut [u8]) -> io::Result<()> {
    println!(rt; "D = 1: the first copy of the opening headers fails")?;
    play_first(&mut open(rt, window, 1, 64, 0)?, 2, 1, 18)
}

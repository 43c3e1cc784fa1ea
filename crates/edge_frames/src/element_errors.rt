// Errors of elements and EOD.
use crate::calls::{finish, open, play_error, play_opening};
use edge_output::{busy, good};
use edge_recorder::Recorder;
use std::io;

// A recording of n filemarks, closed, up to LOCATE 10.
fn begin<'a, P: Print>(
    rt: &'a P,
    window: &'a mut [u8],
    depth: u8,
    blocks: u8,
    n: u8,
) -> io::Result<Recorder<'a, P>> {
    let mut r = open(rt, window, depth, blocks, n)?;
    r.close()?;
    play_opening(&mut r)?;
    Ok(r)
}

// Filemarks at 10 and 11, at 11 and 12, at 12 and 13.
pub fn both_outstanding(rt: &impl Print, window: &mut [u8]) -> io::Result<()> {
    println!(rt; "D = 2, W = 3: two filemarks, both outstanding at each of two errors")?;
    let mut r = begin(rt, window, 2, 3, 2)?;
    play_error(&mut r, 2, 10)?;
    play_error(&mut r, 2, 11)?;
    finish(&mut r, 5, 2)
}

// Two WRITEs of the second filemark are not taken.
pub fn told_at_write(rt: &impl Print, window: &mut [u8]) -> io::Result<()> {
    println!(rt; "D = 2, W = 3: two filemarks, busy, then an error at 10, told at WRITE 11")?;
    let mut r = begin(rt, window, 2, 3, 2)?;
    r.play_good(1)?;
    r.play(busy())?;
    play_error(&mut r, 0, 10)?;
    finish(&mut r, 5, 2)
}

// EOD at 10, 11 and 12.
pub fn eod_alone(rt: &impl Print, window: &mut [u8]) -> io::Result<()> {
    println!(rt; "D = 2, W = 3: EOD alone, which fails twice")?;
    let mut r = begin(rt, window, 2, 3, 0)?;
    play_error(&mut r, 1, 10)?;
    play_error(&mut r, 1, 11)?;
    finish(&mut r, 2, 0)
}

// The third filemark finds room in the window when the first is on tape, at 11.
pub fn two_blocks(rt: &impl Print, window: &mut [u8]) -> io::Result<()> {
    println!(rt; "D = 4, W = 2: three filemarks, two outstanding at each of two errors")?;
    let mut r = open(rt, window, 4, 2, 3)?;
    play_opening(&mut r)?;
    play_error(&mut r, 2, 10)?;
    r.play_good(2)?;
    r.play(good(1))?;
    r.accept_filemark()?;
    r.close()?;
    play_error(&mut r, 1, 12)?;
    finish(&mut r, 5, 3)
}

// Filemarks at 10 and 11, at 12 and 13.
pub fn one_outstanding(rt: &impl Print, window: &mut [u8]) -> io::Result<()> {
    println!(rt; "D = 1, W = 64: two filemarks, each fails once")?;
    let mut r = begin(rt, window, 1, 64, 2)?;
    play_error(&mut r, 1, 10)?;
    play_error(&mut r, 3, 12)?;
    finish(&mut r, 4, 2)
}

// Sixty-four filemarks, of which the first and the last are printed.
fn play_sixty_four(r: &mut Recorder<'_, impl Print>) -> io::Result<()> {
    r.play_good(1)?;
    r.skip_good(62)?;
    r.play_good(1)
}

// From 10 and from 11 on.
pub fn all_outstanding(rt: &impl Print, window: &mut [u8]) -> io::Result<()> {
    println!(rt; "D = 255, W = 64: sixty-four filemarks, all outstanding at an error")?;
    let mut r = begin(rt, window, 255, 64, 64)?;
    play_sixty_four(&mut r)?;
    play_error(&mut r, 0, 10)?;
    play_sixty_four(&mut r)?;
    finish(&mut r, 3, 64)
}

// Recordings on a tape of 3,001 frames, brought near its end.
use edge_output::cartridge;
use edge_recorder::Recorder;
use std::io;

// Two blocks are accepted, and the opening headers are on tape.
fn begun<'a, P: Print>(rt: &'a P, window: &'a mut [u8], tail: u8) -> io::Result<Recorder<'a, P>> {
    let mut r = Recorder::open(rt, window, cartridge(3001, 1), 4, tail)?;
    r.accept_blocks(2)?;
    r.play_headers()?;
    Ok(r)
}

// Their first write error with another skip than 255 is at 2,815: LOCATE of the address that far behind it is due.
pub fn near_end<'a, P: Print>(
    rt: &'a P,
    window: &'a mut [u8],
    tail: u8,
    skip: u8,
) -> io::Result<Recorder<'a, P>> {
    let mut r = begun(rt, window, tail)?;
    r.skip_errors(11, skip)?;
    Ok(r)
}

// The write errors end at 2,305: LOCATE 2,560 is due.
pub fn at_2560<'a, P: Print>(
    rt: &'a P,
    window: &'a mut [u8],
    tail: u8,
) -> io::Result<Recorder<'a, P>> {
    let mut r = begun(rt, window, tail)?;
    r.skip_errors(9, 255)?;
    Ok(r)
}

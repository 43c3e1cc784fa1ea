// The first is the example of 01, "Edges": a filemark between two blocks, with a write error at 11.
// The second goes by write errors to 2,985, over the second header group and to the end of a tape of 3,001 frames.
// The third is a single block, with a busy WRITE and an error with skip 2.
use edge_output::{busy, cartridge, good};
use edge_recorder::Recorder;
use frame::DATA_LENGTH;
use std::io;

// Block, filemark, block: an error at 11 with skip 3, and one at a closing header's copy.
pub fn example(rt: &impl Print) -> io::Result<()> {
    println!(rt; "error at 11, skip 3")?;
    let mut window = [0u8; 4 * DATA_LENGTH];
    let mut r = Recorder::open(rt, &mut window, cartridge(1000, 12), 4, 0)?;
    r.accept_block()?;
    r.accept_filemark()?;
    r.accept_block()?;
    r.play_error(18, 11, 3)?;
    r.play_good(3)?;
    r.play(good(1))?;
    r.close()?;
    r.play_error(13, 2991, 9)?;
    r.play_good(5)?;
    r.look()?;
    r.look()
}

// Write errors lead from 10 to 2,985; then five frames, the second header group, and the last frame of the tape.
pub fn crossing(rt: &impl Print) -> io::Result<()> {
    println!(rt; "over 2,990 to the end of the tape")?;
    let mut window = [0u8; 8 * DATA_LENGTH];
    let mut r = Recorder::open(rt, &mut window, cartridge(3001, 1), 8, 0)?;
    r.accept_blocks(7)?;
    r.play_good(14)?;
    r.play_errors(11)?;
    r.play_error(2, 2815, 170)?;
    r.play_good(1)?;
    r.play(busy())?;
    r.accept_filemark()?;
    r.accept_filemark()?;
    r.play_good(5)?;
    r.play(good(2))?;
    r.play_good(4)?;
    r.look()?;
    r.look()
}

// One block, accepted behind the opening headers: busy at 10, an error there with skip 2, close, done.
pub fn one_block(rt: &impl Print) -> io::Result<()> {
    println!(rt; "busy, then an error, at 10")?;
    let mut window = [0u8; DATA_LENGTH];
    let mut r = Recorder::open(rt, &mut window, cartridge(1000, 12), 1, 0)?;
    r.play_good(14)?;
    r.accept_block()?;
    r.play_good(1)?;
    r.play(busy())?;
    r.play_error(1, 10, 2)?;
    r.play_good(3)?;
    r.close()?;
    r.play_good(16)?;
    r.look()
}

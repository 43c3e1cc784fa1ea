// Three filemarks among four blocks, and a write error between each and the next.
use edge_output::{cartridge, good};
use edge_recorder::Recorder;
use frame::DATA_LENGTH;
use std::io;

// All are accepted first, so that filemarks are outstanding at each error. At the error at 12 the first filemark turns out to be on tape;
// the second moves to 21, the third to 23. The reply before the error at 22 has told that the second is on tape; the third moves again, to 31.
pub fn three_filemarks(rt: &impl Print) -> io::Result<()> {
    println!(rt; "three filemarks, with errors at 12 and at 22, skip 8")?;
    let mut window = [0u8; 7 * DATA_LENGTH];
    let mut r = Recorder::open(rt, &mut window, cartridge(1000, 12), 7, 0)?;
    for _ in 0..3 {
        r.accept_block()?;
        r.accept_filemark()?;
    }
    r.accept_block()?;
    r.play_headers()?;
    r.play_error(7, 12, 8)?;
    r.play_good(6)?;
    r.play(good(3))?;
    r.play_error(0, 22, 8)?;
    r.play_good(4)?;
    r.finish(3)
}

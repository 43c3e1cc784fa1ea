// Four recordings, played and printed.
#![tactic(auto)]

mod filemarks;
mod recordings;

use std::io;

// Each with a window of its own.
pub fn play_all(rt: &impl Print) -> io::Result<()> {
    recordings::example(rt)?;
    recordings::crossing(rt)?;
    recordings::one_block(rt)?;
    filemarks::three_filemarks(rt)
}

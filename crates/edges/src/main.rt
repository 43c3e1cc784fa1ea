// Plays recordings, readings and sheets through the public calls and prints what they give. The output was worked out by hand from 01 and 02.
#![tactic(auto)]

use std::io;

fn main(rt: HostRuntime) -> io::Result<()> {
    edge_recordings::play_all(&rt)?;
    edge_readings::play_all(&rt)?;
    edge_additions::play_all(&rt)?;
    edge_tails::play_all(&rt)?;
    edge_given_up::play_all(&rt)?;
    edge_frames::play_all(&rt)?;
    edge_cuts::play_all(&rt)?;
    edge_sheets::play_all(&rt)
}

// Recordings that keep a tail for EOD, played and printed.
#![tactic(auto)]

mod finals;
mod limits;
mod start;

use std::io;

// Every one with a window of four blocks.
pub fn play_all(rt: &impl Print) -> io::Result<()> {
    limits::behind_gap(rt)?;
    limits::before_gap(rt)?;
    limits::closed_before(rt)?;
    limits::target_refused(rt)?;
    limits::target_at_limit(rt)?;
    limits::stale_target(rt)?;
    finals::target_above_end(rt)?;
    finals::eod_fails(rt)?;
    finals::tape_ends(rt)?;
    finals::no_tail(rt)
}

// Additions and readings where elements were given up, played and printed.
#![tactic(auto)]

mod additions;
mod readings;

use std::io;

// The additions, and the readings.
pub fn play_all(rt: &impl Print) -> io::Result<()> {
    additions::behind_given_up(rt)?;
    additions::in_tail(rt)?;
    readings::foreign(rt)?;
    readings::elsewhere(rt)?;
    readings::old_end(rt)
}

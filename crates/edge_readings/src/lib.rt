// Readings, refused openings and choices of headers, played and printed.
#![tactic(auto)]

mod headers;
mod readings;

use std::io;

// All of them.
pub fn play_all(rt: &impl Print) -> io::Result<()> {
    readings::example(rt)?;
    readings::passed_over(rt)?;
    readings::jump_over(rt)?;
    readings::crossing(rt)?;
    readings::refusals(rt)?;
    headers::openings(rt)?;
    headers::choices(rt)
}

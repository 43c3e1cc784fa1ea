// Recordings opened at the ends that readings found, played and printed.
#![tactic(auto)]

mod calls;
mod chain;
mod counts;
mod ends;
mod old_eod;
mod readings;
mod refusals;

pub use calls::{SIZES, add, add_refused};
pub use readings::{begun, located, newest_header, read_two};
use std::io;

// Every addition.
pub fn play_all(rt: &impl Print) -> io::Result<()> {
    ends::before_gap(rt)?;
    ends::behind_gap(rt)?;
    ends::at_last(rt)?;
    ends::nothing(rt)?;
    chain::three_times(rt)?;
    old_eod::still_reads(rt)?;
    old_eod::named_by_opening_header(rt)?;
    counts::highest(rt)?;
    counts::exhausted(rt)?;
    refusals::no_end(rt)?;
    refusals::order(rt)?;
    refusals::elsewhere(rt)?;
    refusals::windows(rt)
}

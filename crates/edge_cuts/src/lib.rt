// What sessions leave that were cut short: readings on the headers that are left, and additions at the ends found, played and printed.
#![tactic(auto)]

mod additions;
mod passed_over;

use std::io;

// The additions, and what is passed over.
pub fn play_all(rt: &impl Print) -> io::Result<()> {
    additions::behind_opening_headers(rt)?;
    additions::behind_element(rt)?;
    additions::at_last(rt)?;
    additions::behind_failed_write(rt)?;
    additions::behind_eod(rt)?;
    additions::behind_closing_copy(rt)?;
    passed_over::fresh(rt)?;
    passed_over::given_up(rt)
}

// A recording that is played: its calls, each with what it prints, a command and of a WRITE the AUX fields of its frame.
#![tactic(auto)]

mod recorder;
mod tally;

pub use recorder::Recorder;
pub use tally::Tally;

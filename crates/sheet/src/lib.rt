// The shelf sheet of 02, Card 9: from the AUX fields of a reading's deliveries and of EOD, a line for each job.
#![tactic(auto)]

mod line;
mod sheet;

pub use line::LINE_LENGTH;
pub use sheet::{Answer, Sheet};

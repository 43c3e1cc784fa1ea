// The header copies of a recording: ten, in two groups of five.
#![tactic(auto)]

mod copies;

pub use copies::Copies;

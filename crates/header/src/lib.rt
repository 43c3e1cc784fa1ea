// Headers that were read: which are valid and what they tell.
#![tactic(auto)]

mod read;
mod valid;

pub use read::read_header;

// The judgement on one frame that was read.
#![tactic(auto)]

mod judge;
mod table;

pub use judge::judge_frame;

// The state of a recording session and the steps that several of its calls take. The definitions of every call stand here, and the laws over them;
// the public calls are the methods of `recording`.
#![tactic(auto)]

mod report;
mod state;

pub use report::Report;
pub use state::{Answer, Setup, Sizes, Stage, State};

// The state of a reading session and the steps that a reply takes. The definitions of every call stand here, and the laws over them;
// the public calls are the methods of `reading`.
#![tactic(auto)]

mod reply;
mod state;

pub use state::{Position, State};

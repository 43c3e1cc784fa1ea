// A recording session: it takes blocks and filemarks, says which command goes to the drive next, and takes in the drive's replies.
#![tactic(auto)]

mod recording;

pub use recording::{Recording, holding};
pub use recording_state::{Answer, Sizes, Stage};

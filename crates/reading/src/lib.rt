// A reading session: it says which command goes to the drive next, and what each frame read is.
#![tactic(auto)]

mod reading;

pub use reading::Reading;

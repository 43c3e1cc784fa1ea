// What the calls of a reading session return, as C sees it: the session's numbers, the answer and the refusal.
#![tactic(auto)]

mod reading_answers;

pub use reading_answers::{AdrReadFetched, AdrReadOpened, AdrReadReplied};

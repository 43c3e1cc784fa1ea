// What the calls of a recording session return, as C sees it: the session's numbers, the answer and the refusal.
#![tactic(auto)]

mod recording_answers;

pub use recording_answers::{AdrRecordFetched, AdrRecordOutcome};

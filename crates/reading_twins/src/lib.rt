// A reading session as C sees it: for each of its structs one of numbers, and the way there and back.
#![tactic(auto)]

mod reading_numbers;

pub use reading_numbers::AdrReading;

// A shelf sheet as C sees it: a struct of numbers, the way there and back, and what the calls of a sheet return.
#![tactic(auto)]

mod sheet_answers;
mod sheet_numbers;

pub use sheet_answers::AdrSheetEntered;
pub use sheet_numbers::AdrSheet;

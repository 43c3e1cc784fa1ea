// What crosses to and from C beside the sessions, as numbers: geometries, sizes and replies as C gives them, places and choices, and the table of answers.
#![tactic(auto)]

mod answers;
mod arguments;
mod places;

pub use answers::{
    BLOCK, COMMAND, DONE, END, FILEMARK, IDLE, LINE, NOTHING, REFUSED, verdict_number,
};
pub use arguments::{AdrGeometry, AdrReply, sizes_of};
pub use places::{AdrChoice, AdrPlace};

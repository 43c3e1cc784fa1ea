// What goes to the drive and what comes back.
#![tactic(auto)]

mod command;
mod exchange;
mod reply;
mod senses;

pub use command::{Command, LOCATE, READ, READ_POSITION, WRITE};
pub use exchange::Exchange;
pub use reply::Reply;
pub use senses::{
    BUSY, END_OF_DATA, END_OF_MEDIUM, GOOD, RECOVERED, UNREADABLE, VOLUME_OVERFLOW, WRITE_ERROR,
};

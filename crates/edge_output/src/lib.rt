// What the played recordings and readings print with, the replies that they bring and the cartridges that they are opened on.
#![tactic(auto)]

mod frames;
mod printing;
mod replies;

pub use frames::Sent;
pub use printing::{Shown, session_of};
pub use replies::{
    busy, cartridge, end_of_data, end_of_medium, good, recovered, unreadable, unready,
    volume_overflow, write_error,
};

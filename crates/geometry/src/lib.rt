// Addresses and sequence numbers, the cartridge's geometry, and the refusals: what every other crate speaks of.
#![tactic(auto)]

mod address;
mod cartridge;
mod refusal;

pub use address::{Address, HIGHEST_ADDRESS, Seq, preceding};
pub use cartridge::{
    FIRST_USER, GROUP_COPIES, Geometry, HEADER_GROUPS, LoadPoint, SECOND_GROUP, SECOND_USER,
    copy_at, header_address, is_user, past_reserved,
};
pub use refusal::{Outcome, Refusal};

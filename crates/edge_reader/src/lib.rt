// A reading that is played: its calls, each with what it prints, a command with the sense triple of its reply and what that delivers.
#![tactic(auto)]

mod reader;

pub use reader::{Reader, header, header_frame, opening_header};

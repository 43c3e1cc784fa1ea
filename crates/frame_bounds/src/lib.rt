// The most frames that the drive takes in one session, for whoever plans by frames sent. `archive` promises that it never takes more.
// A WRITE that is answered otherwise than good is not taken, and is not counted.
#![tactic(auto)]

ghost use Rattle.std.specs.Prelude.{◌≡◌};
ghost use Rattle.frame_bounds.specs.Bounds.{frames_at_most, header_frames_at_most};

use geometry::{GROUP_COPIES, HEADER_GROUPS};

// The header copies of a session: those of both groups at its opening, and again at its close.
const SESSION_COPIES: u64 = 2 * (HEADER_GROUPS as u64) * (GROUP_COPIES as u64);

// Frames of elements and EOD, with so many elements and so many write errors met by these, at depth D and with W blocks.
pub fn frames_sent_at_most(elements: u32, errors: u32, depth: u32, blocks: u32) -> u64
    ensures { result ≡ frames_at_most elements errors depth blocks }
{
    (elements as u64) + 1 + (errors as u64) * (depth.min(blocks) as u64)
}

// Frames of headers, with so many write errors met by these, at depth D.
pub fn header_frames_sent_at_most(errors: u32, depth: u32) -> u64
    ensures { result ≡ header_frames_at_most errors depth }
{
    let held = depth.min(GROUP_COPIES as u32);
    SESSION_COPIES + (errors as u64) * (held.saturating_sub(1) as u64)
}

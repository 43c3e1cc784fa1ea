// The most frames that the drive takes in one session, for whoever plans by them.
ghost use Rattle.std.specs.Prelude.{◌≡◌};
ghost use Rattle.frame_bounds.specs.Bounds.{frames_at_most, header_frames_at_most};

use frame_bounds::{frames_sent_at_most, header_frames_sent_at_most};

// Frames of elements and EOD, with so many elements and so many write errors met by these, at depth D and with W blocks.
#[unsafe(no_mangle)]
pub extern "C" fn adr_frames_sent_at_most(
    elements: u32,
    errors: u32,
    depth: u32,
    blocks: u32,
) -> u64
    ensures { result ≡ frames_at_most elements errors depth blocks }
{
    frames_sent_at_most(elements, errors, depth, blocks)
}

// Frames of headers, with so many write errors met by these, at depth D.
#[unsafe(no_mangle)]
pub extern "C" fn adr_header_frames_sent_at_most(errors: u32, depth: u32) -> u64
    ensures { result ≡ header_frames_at_most errors depth }
{
    header_frames_sent_at_most(errors, depth)
}

// The most frames by themselves, also for sizes that no recording is opened with.
use frame_bounds::{frames_sent_at_most, header_frames_sent_at_most};
use std::io;

const HIGHEST: u32 = u32::MAX;

// Elements, errors, D and W of each line.
const FRAMES: [(u32, u32, u32, u32); 7] = [
    (0, 0, 1, 1),
    (5, 7, 0, 3),
    (5, 7, 3, 0),
    (5, 7, 2, 3),
    (5, 7, 3, 2),
    (HIGHEST, HIGHEST, 0, HIGHEST),
    (HIGHEST, HIGHEST, HIGHEST, HIGHEST),
];

// Errors and D of each line.
const HEADER_FRAMES: [(u32, u32); 8] = [
    (0, 255),
    (1, 0),
    (1, 1),
    (1, 4),
    (1, 5),
    (1, 255),
    (HIGHEST, 0),
    (HIGHEST, HIGHEST),
];

// Both kinds of frames.
pub fn print_all(rt: &impl Print) -> io::Result<()> {
    println!(rt; "the most frames of elements and EOD")?;
    for (n, e, d, w) in FRAMES {
        println!(rt;
            "n {n}, e {e}, D {d}, W {w}: {}",
            frames_sent_at_most(n, e, d, w)
        )?;
    }
    println!(rt; "the most frames of headers")?;
    for (e, d) in HEADER_FRAMES {
        println!(rt; "e {e}, D {d}: {}", header_frames_sent_at_most(e, d))?;
    }
    Ok(())
}

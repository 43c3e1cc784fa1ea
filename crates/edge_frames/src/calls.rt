// How the counted recordings begin and go on, and the lines at their end.
use edge_output::cartridge;
use edge_recorder::Recorder;
use frame_bounds::{frames_sent_at_most, header_frames_sent_at_most};
use recording::{Recording, Sizes};
use std::io;

// Opens a recording for a drive that buffers so many frames, with a window of so many blocks, and brings it n filemarks.
pub fn open<'a, P: Print>(
    rt: &'a P,
    window: &'a mut [u8],
    depth: u8,
    blocks: u8,
    n: u8,
) -> io::Result<Recorder<'a, P>> {
    let sizes = Sizes {
        depth,
        blocks,
        tail: 0,
    };
    let mut r = Recorder::opened(
        rt,
        window,
        Recording::open_blank(cartridge(1000, 12), sizes),
    )?;
    r.accept_filemarks(n)?;
    Ok(r)
}

// The opening headers and LOCATE 10.
pub fn play_opening(r: &mut Recorder<'_, impl Print>) -> io::Result<()> {
    r.play_headers()?;
    r.play_good(1)
}

// n commands answered good, a write error at an address with skip 1, and the LOCATE behind it.
pub fn play_error(r: &mut Recorder<'_, impl Print>, n: u8, at: u32) -> io::Result<()> {
    r.play_error(n, at, 1)?;
    r.play_good(1)
}

// n commands up to the closing headers, these, done, and what was counted, for so many elements.
pub fn finish(r: &mut Recorder<'_, impl Print>, n: u8, elements: u32) -> io::Result<()> {
    r.run_out(n)?;
    let setup = r.session.state.setup;
    let depth = setup.depth as u32;
    let blocks = setup.highest as u32 + 1;
    let most = frames_sent_at_most(elements, r.elements.errors, depth, blocks);
    println!(r.rt; "frames {} of at most {most}", r.elements.frames)?;
    let most_headers = header_frames_sent_at_most(r.headers.errors, depth);
    println!(r.rt;
        "header frames {} of at most {most_headers}",
        r.headers.frames
    )
}

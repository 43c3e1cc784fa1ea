// The calls that additions share: opening, and one element up to done.
use adding::open_at_end;
use edge_reader::Reader;
use edge_recorder::Recorder;
use frame::DATA_LENGTH;
use recording::Sizes;
use std::io;

// The sizes of an opening that takes them.
pub const SIZES: Sizes = Sizes {
    depth: 16,
    blocks: 4,
    tail: 0,
};

// Opens an addition at the end of a reading.
pub fn add<'a, 'b: 'a, P: Print>(
    reader: &Reader<'b, P>,
    window: &'a mut [u8],
    sizes: Sizes,
) -> io::Result<Recorder<'a, P>> {
    Recorder::opened(reader.rt, window, open_at_end(reader.session, sizes))
}

// A refused opening, and that the session it gives is ended.
pub fn add_refused(reader: &Reader<'_, impl Print>, sizes: Sizes) -> io::Result<()> {
    add(reader, &mut [], sizes)?.look()
}

// The headers, LOCATE, the one element that was accepted, and the close.
fn play_one(mut r: Recorder<'_, impl Print>) -> io::Result<()> {
    r.play_headers()?;
    r.play_good(2)?;
    r.finish(3)
}

// An addition of one block.
pub fn add_block(reader: &Reader<'_, impl Print>) -> io::Result<()> {
    let mut window = [0u8; 4 * DATA_LENGTH];
    let mut r = add(reader, &mut window, SIZES)?;
    r.accept_block()?;
    play_one(r)
}

// An addition of one filemark.
pub fn add_filemark(reader: &Reader<'_, impl Print>) -> io::Result<()> {
    let mut window = [0u8; 4 * DATA_LENGTH];
    let mut r = add(reader, &mut window, SIZES)?;
    r.accept_filemark()?;
    play_one(r)
}

// The beginnings of readings, and the short ones whole. The cartridges have 12,000 frames.
use edge_output::cartridge;
use edge_reader::{Reader, header};
use frame::{Header, Kind};
use std::io;

// A header with this pass, EOD address and update count.
pub fn newest_header(pass: u16, eod: u32, update: u32) -> Header {
    header(11999, pass, eod, update)
}

// A reading that stands at 10.
pub fn located<P: Print>(rt: &P, h: Header) -> io::Result<Reader<'_, P>> {
    Reader::located(rt, cartridge(1000, 12), h)
}

// A block at 10 and a filemark at 11.
pub fn begun<P: Print>(rt: &P, h: Header) -> io::Result<Reader<'_, P>> {
    let mut r = located(rt, h)?;
    r.play_element(Kind::Data, 0, 1)?;
    r.play_element(Kind::Marker, 1, 0)?;
    Ok(r)
}

// These two, and EOD at 12.
pub fn read_two<P: Print>(rt: &P, h: Header) -> io::Result<Reader<'_, P>> {
    let mut r = begun(rt, h)?;
    r.play_element(Kind::Eod, 2, 0)?;
    Ok(r)
}

// Nothing but EOD, at 10.
pub fn read_none<P: Print>(rt: &P, h: Header) -> io::Result<Reader<'_, P>> {
    let mut r = located(rt, h)?;
    r.play_element(Kind::Eod, 0, 0)?;
    Ok(r)
}

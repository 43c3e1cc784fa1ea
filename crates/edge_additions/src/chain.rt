// Three additions to one cartridge, each behind a reading of what the one before left, and a reading of all.
use crate::calls::{add_block, add_filemark};
use crate::readings::{begun, newest_header, read_two};
use edge_reader::Reader;
use frame::{Header, Kind};
use std::io;

// Up to the block that was added first.
fn read_first<P: Print>(rt: &P, h: Header) -> io::Result<Reader<'_, P>> {
    let mut r = begun(rt, h)?;
    r.play_element(Kind::Data, 2, 90)?;
    Ok(r)
}

// Up to the filemark that was added next.
fn read_second<P: Print>(rt: &P, h: Header) -> io::Result<Reader<'_, P>> {
    let mut r = read_first(rt, h)?;
    r.play_element(Kind::Marker, 3, 0)?;
    Ok(r)
}

// All of it.
pub fn three_times(rt: &impl Print) -> io::Result<()> {
    println!(rt; "adding three times: block, filemark, block")?;
    add_block(&read_two(rt, newest_header(2, 12, 3))?)?;
    let mut r = read_first(rt, newest_header(2, 13, 5))?;
    r.play_element(Kind::Eod, 3, 0)?;
    add_filemark(&r)?;
    r = read_second(rt, newest_header(2, 14, 7))?;
    r.play_element(Kind::Eod, 4, 0)?;
    add_block(&r)?;
    r = read_second(rt, newest_header(2, 15, 9))?;
    r.play_element(Kind::Data, 4, 90)?;
    r.play_element(Kind::Eod, 5, 0)
}

// What becomes of the old EOD.
use crate::calls::{SIZES, add};
use crate::readings::{begun, located, newest_header, read_two};
use edge_reader::opening_header;
use frame::{DATA_LENGTH, Kind};
use std::io;

// An error at 12 with skip 2.
fn add_failing(rt: &impl Print) -> io::Result<()> {
    let mut window = [0u8; 4 * DATA_LENGTH];
    let mut r = add(&read_two(rt, newest_header(3, 12, 4))?, &mut window, SIZES)?;
    r.accept_block()?;
    r.play_headers()?;
    r.play_error(2, 12, 2)?;
    r.play_good(2)?;
    r.finish(3)
}

// One block, which goes to 14, and the reading of the cartridge: 12 reads as the old EOD, 13 as nothing.
pub fn still_reads(rt: &impl Print) -> io::Result<()> {
    println!(rt; "adding at 12: the write there fails, and the old EOD still reads")?;
    add_failing(rt)?;
    let mut r = begun(rt, newest_header(3, 15, 6))?;
    r.play_element(Kind::Eod, 2, 0)?;
    r.play_unreadable()?;
    r.play_element(Kind::Data, 2, 90)?;
    r.play_element(Kind::Eod, 3, 0)
}

// EODs are judged by the old end where the header names no EOD.
pub fn named_by_opening_header(rt: &impl Print) -> io::Result<()> {
    println!(rt;
        "reading: an EOD below the old end that an opening header names, one with a number above"
    )?;
    let h = opening_header(11999, 3, 5, 11);
    let mut r = located(rt, h)?;
    r.play_element(Kind::Eod, 0, 0)?;
    r.play_element(Kind::Eod, 0, 0)?;
    r = located(rt, h)?;
    r.play_element(Kind::Eod, 1, 0)?;
    r.look()
}

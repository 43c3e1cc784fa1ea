// Frames that are passed over on the header of a cut session, and would not be on the one before.
use crate::additions::{end_of_tape, header_at_12, old_header};
use edge_additions::{begun, located, newest_header};
use edge_reader::Reader;
use frame::{Header, Kind};
use std::io;

// A recording of pass 2 over the block, filemark and EOD of pass 1.
pub fn fresh(rt: &impl Print) -> io::Result<()> {
    println!(rt;
        "a fresh recording, cut behind its first header copy: an older one is passed over"
    )?;
    let mut r = located(rt, newest_header(2, 0, 2))?;
    r.play_older(1, Kind::Data, 0)?;
    r.play_older(1, Kind::Marker, 1)?;
    r.play_older(1, Kind::Eod, 2)?;
    end_of_tape(&mut r)
}

// The filemark failed and reads at its bad spot, 11; EOD has its number.
fn read_one_below<P: Print>(rt: &P, h: Header) -> io::Result<Reader<'_, P>> {
    let mut r = begun(rt, h)?;
    r.play_element(Kind::Eod, 1, 0)?;
    Ok(r)
}

// EOD one below ends reading at a header's EOD address, and an opening header has none.
pub fn given_up(rt: &impl Print) -> io::Result<()> {
    println!(rt;
        "adding behind a given-up filemark, cut at once: the opening header, then the old one"
    )?;
    end_of_tape(&mut read_one_below(rt, header_at_12())?)?;
    read_one_below(rt, old_header())?;
    Ok(())
}

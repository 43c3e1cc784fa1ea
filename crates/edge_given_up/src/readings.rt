// EOD with a number below the expected one.
use edge_output::cartridge;
use edge_reader::{Reader, header, opening_header};
use frame::{Header, Kind};
use std::io;

// Blocks at 10 and 11.
fn read_two<P: Print>(rt: &P, h: Header) -> io::Result<Reader<'_, P>> {
    let mut r = Reader::located(rt, cartridge(1000, 12), h)?;
    r.play_element(Kind::Data, 0, 1)?;
    r.play_element(Kind::Data, 1, 2)?;
    Ok(r)
}

// An EOD that would end the reading but for its flags.
pub fn foreign(rt: &impl Print) -> io::Result<()> {
    println!(rt;
        "reading: EOD one below the expected number where the header has it, with flags 4C"
    )?;
    let mut r = read_two(rt, header(11999, 2, 12, 3))?;
    r.play_foreign(Kind::Eod, 1)?;
    r.look()
}

// EODs that are passed over.
pub fn elsewhere(rt: &impl Print) -> io::Result<()> {
    println!(rt; "reading: EOD two below where the header has it, then one below elsewhere")?;
    let mut r = read_two(rt, header(11999, 2, 12, 3))?;
    for number in 0..3 {
        r.play_element(Kind::Eod, number, 0)?;
    }
    Ok(())
}

// On the opening header of an addition at 12 one below ends no reading.
pub fn old_end(rt: &impl Print) -> io::Result<()> {
    println!(rt; "reading: EOD one below at the old end that an opening header names")?;
    let mut r = read_two(rt, opening_header(11999, 2, 3, 12))?;
    r.play_element(Kind::Eod, 1, 0)?;
    r.play_element(Kind::Eod, 2, 0)
}

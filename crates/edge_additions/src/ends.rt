// Additions at 2,989, at 3,000 and at LAST, and one of nothing.
use crate::calls::{SIZES, add, add_block};
use crate::readings::{begun, located, newest_header, read_two};
use edge_output::{cartridge, good};
use edge_reader::{Reader, header};
use frame::{DATA_LENGTH, Kind};
use std::io;

// Jumps lead from 12 to 2,988.
fn read_to_2989<P: Print>(rt: &P) -> io::Result<Reader<'_, P>> {
    let mut r = begun(rt, newest_header(3, 2989, 4))?;
    r.jump(93);
    r.play_unreadable()?;
    r.play_element(Kind::Eod, 2, 0)?;
    Ok(r)
}

// Block, filemark, block. Every header copy is printed. The frame at 2,989 is still buffered when its position is first read.
pub fn before_gap(rt: &impl Print) -> io::Result<()> {
    println!(rt; "adding at 2,989: the second element goes to 3,000")?;
    let mut window = [0u8; 4 * DATA_LENGTH];
    let mut r = add(&read_to_2989(rt)?, &mut window, SIZES)?;
    r.accept_block()?;
    r.accept_filemark()?;
    r.accept_block()?;
    r.play_good(16)?;
    r.play(good(1))?;
    r.play_good(4)?;
    r.close()?;
    r.play_good(17)?;
    r.look()
}

// Jumps lead from 10 to 2,986.
fn read_to_3000<P: Print>(rt: &P) -> io::Result<Reader<'_, P>> {
    let mut r = located(rt, newest_header(3, 3000, 7))?;
    r.jump(93);
    r.play_element(Kind::Data, 0, 1)?;
    r.play_element(Kind::Marker, 1, 0)?;
    r.play_unreadable()?;
    r.play_element(Kind::Data, 2, 2)?;
    r.play_sense(good(0))?;
    r.play_element(Kind::Eod, 3, 0)?;
    Ok(r)
}

// One block, behind the second header group and its defect map.
pub fn behind_gap(rt: &impl Print) -> io::Result<()> {
    println!(rt; "adding at 3,000")?;
    add_block(&read_to_3000(rt)?)
}

// Jumps lead from 14 to 3,000; LAST is 3,001.
fn read_to_last<P: Print>(rt: &P) -> io::Result<Reader<'_, P>> {
    let mut r = Reader::located(rt, cartridge(3002, 1), header(3001, 3, 3001, 2))?;
    r.play_element(Kind::Marker, 0, 0)?;
    r.play_element(Kind::Marker, 1, 0)?;
    r.play_element(Kind::Data, 2, 1)?;
    r.play_unreadable()?;
    r.jump(93);
    r.play_unreadable()?;
    r.play_element(Kind::Eod, 3, 0)?;
    Ok(r)
}

// Block, filemark. The frame at LAST is still buffered when its position is first read.
pub fn at_last(rt: &impl Print) -> io::Result<()> {
    println!(rt; "adding at LAST: no room for the second element")?;
    let mut window = [0u8; 4 * DATA_LENGTH];
    let mut r = add(&read_to_last(rt)?, &mut window, SIZES)?;
    r.accept_block()?;
    r.accept_filemark()?;
    r.play_headers()?;
    r.play_good(2)?;
    r.play(good(1))?;
    r.play_good(1)?;
    r.look()?;
    r.look()
}

// Idle behind LOCATE, until it is closed.
pub fn nothing(rt: &impl Print) -> io::Result<()> {
    println!(rt; "adding nothing: EOD again")?;
    let mut window = [0u8; 4 * DATA_LENGTH];
    let mut r = add(&read_two(rt, newest_header(3, 12, 8))?, &mut window, SIZES)?;
    r.play_headers()?;
    r.play_good(1)?;
    r.look()?;
    r.finish(2)
}

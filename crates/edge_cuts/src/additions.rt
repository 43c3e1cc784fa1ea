// Additions of one block behind a block and a filemark, cut ever later.
use edge_additions::{SIZES, add, add_refused, begun, newest_header, read_two};
use edge_output::{cartridge, end_of_medium};
use edge_reader::{Reader, opening_header};
use frame::{DATA_LENGTH, Header, Kind};
use std::io;

// The header of the closed session, with EOD at 12.
pub fn old_header() -> Header {
    newest_header(1, 12, 1)
}

// The opening header of the addition at 12.
pub fn header_at_12() -> Header {
    opening_header(11999, 1, 2, 12)
}

// Nothing reads from here on.
pub fn end_of_tape(r: &mut Reader<'_, impl Print>) -> io::Result<()> {
    r.play_sense(end_of_medium())
}

// No element was written.
pub fn behind_opening_headers(rt: &impl Print) -> io::Result<()> {
    println!(rt; "adding at 12, cut behind the opening headers: the old EOD ends the reading")?;
    add_refused(&read_two(rt, header_at_12())?, SIZES)
}

// The block that was added.
fn play_added(r: &mut Reader<'_, impl Print>) -> io::Result<()> {
    r.play_element(Kind::Data, 2, 90)
}

// It stands over the old EOD, and no other was written.
fn read_unclosed(rt: &impl Print, h: Header) -> io::Result<()> {
    let mut r = begun(rt, h)?;
    play_added(&mut r)?;
    end_of_tape(&mut r)?;
    add_refused(&r, SIZES)
}

// One element, and no EOD.
pub fn behind_element(rt: &impl Print) -> io::Result<()> {
    println!(rt;
        "adding at 12, cut behind the first element: the opening header, then the old one"
    )?;
    read_unclosed(rt, header_at_12())?;
    read_unclosed(rt, old_header())
}

// The same where that element has the last frame of the tape. Jumps lead from 14 to 3,000, which is LAST.
pub fn at_last(rt: &impl Print) -> io::Result<()> {
    println!(rt; "adding at LAST, cut behind the first element: the tape ends there")?;
    let mut r = Reader::located(rt, cartridge(3001, 1), opening_header(3000, 1, 2, 3000))?;
    r.play_element(Kind::Data, 0, 1)?;
    r.play_element(Kind::Marker, 1, 0)?;
    r.play_unreadable()?;
    r.play_unreadable()?;
    r.jump(93);
    play_added(&mut r)?;
    r.look()?;
    add_refused(&r, SIZES)
}

// The write at 12 failed. Where the old EOD still reads, the reading ends before the block.
pub fn behind_failed_write(rt: &impl Print) -> io::Result<()> {
    println!(rt;
        "adding at 12, cut behind a block at 13: 12 reads as nothing, then as the old EOD"
    )?;
    let mut r = begun(rt, header_at_12())?;
    r.play_unreadable()?;
    play_added(&mut r)?;
    end_of_tape(&mut r)?;
    read_two(rt, header_at_12())?.look()
}

fn read_to_13<P: Print>(rt: &P, h: Header) -> io::Result<Reader<'_, P>> {
    let mut r = begun(rt, h)?;
    play_added(&mut r)?;
    r.play_element(Kind::Eod, 3, 0)?;
    Ok(r)
}

// EOD, and no closing header.
pub fn behind_eod(rt: &impl Print) -> io::Result<()> {
    println!(rt; "adding at 12, cut behind EOD: the opening header")?;
    add_refused(&read_to_13(rt, header_at_12())?, SIZES)
}

// Up to the first element of the next addition.
pub fn behind_closing_copy(rt: &impl Print) -> io::Result<()> {
    println!(rt; "adding at 12, cut behind one closing header copy, and added to again")?;
    let mut window = [0u8; 4 * DATA_LENGTH];
    let mut r = add(
        &read_to_13(rt, newest_header(1, 13, 3))?,
        &mut window,
        SIZES,
    )?;
    r.accept_filemark()?;
    r.play_headers()?;
    r.play_good(2)
}

// A cartridge whose single block was given up, read and added to; and an addition that begins in its own tail.
use edge_additions::{SIZES, add};
use edge_output::cartridge;
use edge_reader::{Reader, header};
use edge_recorder::Recorder;
use frame::{DATA_LENGTH, Header, Kind};
use recording::Sizes;
use std::io;

// An error at 2,986, the last address for an element, with skip 3.
fn give_up(rt: &impl Print) -> io::Result<()> {
    println!(rt;
        "tail of 14: the only block fails at 2,986 and is given up; it reads there, and is added to"
    )?;
    let mut window = [0u8; DATA_LENGTH];
    let mut r = Recorder::open(rt, &mut window, cartridge(3001, 1), 1, 14)?;
    r.accept_block()?;
    r.play_headers()?;
    r.skip_errors(11, 171)?;
    r.play_error(2, 2986, 3)?;
    r.finish(3)
}

// A reading that stands at 2,986, by jumps from 10.
fn read_from_2986<P: Print>(rt: &P, h: Header) -> io::Result<Reader<'_, P>> {
    let mut r = Reader::located(rt, cartridge(3001, 1), h)?;
    r.jump(93);
    Ok(r)
}

// The block is at its bad spot, EOD at 2,989.
fn read_given_up<P: Print>(rt: &P) -> io::Result<Reader<'_, P>> {
    let mut r = read_from_2986(rt, header(3000, 1, 2989, 1))?;
    r.play_element(Kind::Data, 0, 90)?;
    r.play_unreadable()?;
    r.play_unreadable()?;
    r.play_element(Kind::Eod, 0, 0)?;
    Ok(r)
}

// The addition goes over the EOD, behind the block that still reads: LOCATE 2,989 and a block there.
pub fn behind_given_up(rt: &impl Print) -> io::Result<()> {
    give_up(rt)?;
    let mut window = [0u8; 4 * DATA_LENGTH];
    let mut r = add(&read_given_up(rt)?, &mut window, SIZES)?;
    r.accept_block()?;
    r.play_headers()?;
    r.play_good(2)?;
    r.finish(4)
}

// A block at 2,986, a filemark at 2,987, EOD at 2,989.
fn read_to_2989<P: Print>(rt: &P) -> io::Result<Reader<'_, P>> {
    let mut r = read_from_2986(rt, header(3000, 3, 2989, 4))?;
    r.play_element(Kind::Data, 0, 1)?;
    r.play_element(Kind::Marker, 1, 0)?;
    r.play_unreadable()?;
    r.play_element(Kind::Eod, 2, 0)?;
    Ok(r)
}

// Its first address is kept for EOD already.
pub fn in_tail(rt: &impl Print) -> io::Result<()> {
    println!(rt; "adding at 2,989 with a tail of 255: the block is given up")?;
    let mut window = [0u8; 4 * DATA_LENGTH];
    let mut r = add(
        &read_to_2989(rt)?,
        &mut window,
        Sizes { tail: 255, ..SIZES },
    )?;
    r.accept_block()?;
    r.play_headers()?;
    r.play_good(1)?;
    r.look()?;
    r.finish(2)
}

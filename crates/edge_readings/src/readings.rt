// The readings; the first is of the cartridge that the first recording leaves.
use edge_output::{
    busy, cartridge, end_of_data, end_of_medium, good, recovered, unready, write_error,
};
use edge_reader::{Reader, header};
use frame::Kind;
use std::io;

// The cartridge that the first recording leaves, opened on the newer of an opening and a closing header.
// 11 reads as a frame of another pass, 12 and 13 as nothing.
pub fn example(rt: &impl Print) -> io::Result<()> {
    println!(rt; "reading of the first: the failed address holds an older frame")?;
    let opening = header(11999, 1, 0, 0);
    let closing = header(11999, 1, 16, 1);
    let mut r = Reader::open_newer(rt, cartridge(1000, 12), opening, closing)?;
    r.play_sense(good(0))?;
    r.play_element(Kind::Data, 0, 90)?;
    r.play_older(7, Kind::Data, 1)?;
    r.play_unreadable()?;
    r.play_unreadable()?;
    r.play_element(Kind::Marker, 1, 0)?;
    r.play_element(Kind::Data, 2, 90)?;
    r.play_element(Kind::Eod, 3, 0)?;
    r.look()?;
    r.look()
}

// Frames and addresses that deliver nothing, and a busy drive.
pub fn passed_over(rt: &impl Print) -> io::Result<()> {
    println!(rt; "reading: another pass, a number below, unreadable, recovered, busy")?;
    let mut r = Reader::open(rt, cartridge(1000, 12), header(11999, 2, 16, 3))?;
    r.play_sense(unready())?;
    r.play_sense(good(0))?;
    r.play_older(1, Kind::Data, 0)?;
    r.play_unreadable()?;
    r.play_sense(busy())?;
    r.play_frame(recovered(), r.element(Kind::Data, 0), 1)?;
    r.play_element(Kind::Data, 0, 255)?;
    r.play_older(1, Kind::Eod, 1)?;
    r.play_element(Kind::Marker, 1, 0)?;
    r.play_element(Kind::Eod, 2, 0)?;
    r.look()
}

// From 10 to 2,954 by jumps, four addresses further, and from 2,958 to 3,000.
pub fn jump_over(rt: &impl Print) -> io::Result<()> {
    println!(rt; "reading: a jump to 2,990 goes to 3,000")?;
    let mut r = Reader::located(rt, cartridge(1000, 12), header(11999, 2, 3001, 3))?;
    r.jump(92);
    for _ in 0..4 {
        r.play_unreadable()?;
    }
    r.play_sense(end_of_data())?;
    r.play_sense(good(0))?;
    r.play_element(Kind::Data, 0, 2)?;
    r.play_element(Kind::Eod, 1, 0)?;
    r.look()
}

// From 10 to 2,986 by jumps, address by address to 3,000, which is LAST.
pub fn crossing(rt: &impl Print) -> io::Result<()> {
    println!(rt; "reading: over 2,990 to the end of the tape")?;
    let mut r = Reader::located(rt, cartridge(3001, 1), header(3000, 2, 0, 3))?;
    r.jump(93);
    r.play_element(Kind::Data, 0, 3)?;
    r.play_unreadable()?;
    r.play_unreadable()?;
    r.play_element(Kind::Marker, 1, 0)?;
    r.play_sense(good(0))?;
    r.play_unreadable()?;
    r.look()?;
    r.look()
}

// A session that stands at 10.
fn located<P: Print>(rt: &P) -> io::Result<Reader<'_, P>> {
    Reader::located(rt, cartridge(1000, 12), header(11999, 2, 16, 3))
}

// Replies that end the reading.
pub fn refusals(rt: &impl Print) -> io::Result<()> {
    println!(rt; "reading: refused replies")?;
    let mut r = located(rt)?;
    r.play_sense(end_of_medium())?;
    r.look()?;
    r = located(rt)?;
    r.play_element(Kind::Data, 1, 0)?;
    r.look()?;
    r = located(rt)?;
    r.play_foreign(Kind::Data, 0)?;
    r.look()?;
    r = located(rt)?;
    r.play_sense(write_error(0, 0))?;
    r.look()
}

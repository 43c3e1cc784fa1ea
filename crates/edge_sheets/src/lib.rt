// Shelf sheets of frames that the layer builds: each call, and what it prints.
#![tactic(auto)]

mod clerk;

use clerk::Clerk;
use frame::Kind;
use sheet::Sheet;
use std::io;

// 02's example, and calls behind its end.
fn example(rt: &impl Print) -> io::Result<()> {
    println!(rt;
        "sheet: a job of two blocks, one of none and EOD, then a block and the dump's end"
    )?;
    let mut s = Clerk::open(rt)?;
    s.enter(Kind::Data, 0)?;
    s.enter(Kind::Data, 1)?;
    s.enter(Kind::Marker, 2)?;
    s.enter(Kind::Marker, 3)?;
    s.enter(Kind::Eod, 4)?;
    s.enter(Kind::Data, 5)?;
    s.finish()
}

// The last block failed and still reads: EOD has its number.
fn one_below(rt: &impl Print) -> io::Result<()> {
    println!(rt; "sheet: two blocks and EOD one below the next number")?;
    let mut s = Clerk::open(rt)?;
    s.enter(Kind::Data, 0)?;
    s.enter(Kind::Data, 1)?;
    s.enter(Kind::Eod, 1)
}

// A job that is open where the sheet breaks off has no line.
fn broken_off(rt: &impl Print) -> io::Result<()> {
    println!(rt; "sheet: a filemark and a block, then the dump's end")?;
    let mut s = Clerk::open(rt)?;
    s.enter(Kind::Marker, 0)?;
    s.enter(Kind::Data, 1)?;
    s.finish()?;
    println!(rt; "sheet: a filemark, then a block of the number behind the next")?;
    s = Clerk::open(rt)?;
    s.enter(Kind::Marker, 0)?;
    s.enter(Kind::Data, 2)?;
    println!(rt; "sheet: EOD of the highest number")?;
    s = Clerk::open(rt)?;
    s.enter(Kind::Eod, u32::MAX)
}

// Lengths that are refused: an opening so gives an ended sheet, a field leaves the sheet as it was.
fn lengths(rt: &impl Print) -> io::Result<()> {
    println!(rt; "sheet: a line of 27 bytes at the opening, then a filemark")?;
    Clerk::open_short(rt)?.enter(Kind::Marker, 0)?;
    println!(rt; "sheet: a field of 511 bytes, then a filemark")?;
    let mut s = Clerk::open(rt)?;
    s.enter_short()?;
    s.enter(Kind::Marker, 0)
}

// A sheet far on: this job begins at this number.
fn far_on<P: Print>(rt: &P, job: u32, first: u64) -> Clerk<'_, P> {
    let sheet = Sheet {
        job,
        first,
        next: first,
        ended: false,
    };
    Clerk { rt, sheet }
}

// The highest job that has a line, and the one behind it.
fn highest_job(rt: &impl Print) -> io::Result<()> {
    println!(rt; "sheet: job 99,999 of one block, then a filemark")?;
    let mut s = far_on(rt, 99999, 99998);
    s.enter(Kind::Data, 99998)?;
    s.enter(Kind::Marker, 99999)?;
    s.enter(Kind::Marker, 100000)
}

// The highest number, and what may come behind it.
fn highest_number(rt: &impl Print) -> io::Result<()> {
    println!(rt; "sheet: a block of the highest number, and EOD of that number")?;
    let mut s = far_on(rt, 2, 4294967295);
    s.enter(Kind::Data, u32::MAX)?;
    s.enter(Kind::Eod, u32::MAX)?;
    println!(rt; "sheet: a filemark of the highest number, then a block of number 0")?;
    s = far_on(rt, 2, 4294967295);
    s.enter(Kind::Marker, u32::MAX)?;
    s.enter(Kind::Data, 0)
}

pub fn play_all(rt: &impl Print) -> io::Result<()> {
    example(rt)?;
    one_below(rt)?;
    broken_off(rt)?;
    lengths(rt)?;
    highest_job(rt)?;
    highest_number(rt)
}

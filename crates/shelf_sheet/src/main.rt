// Reads a dump of AUX fields, those of the deliveries and of EOD in order, from standard input and prints its shelf sheet.
#![tactic(auto)]

ghost use Rattle.std.specs.Prelude.{◌≡◌, ◌≤◌, length, IfOk};
ghost use Rattle.frame.specs.Lengths.{aux_length};
ghost use Rattle.shelf_sheet.specs.Onward.{Onward};

use frame::AUX_LENGTH;
use geometry::Outcome;
use sheet::{Answer, LINE_LENGTH, Sheet};
use std::io;
use std::io::{Input, Read};

// Writes a line; where that fails, tells so.
fn write(rt: &(impl Print + Eprint), line: &[u8]) -> io::Result<()> {
    let written = rt.write_all(line);
    if written.is_err() {
        let _ = eprintln!(rt;
            "shelf_sheet: standard output can't be written and the sheet is not whole: make room or name another file, and print it again"
        );
    }
    written
}

// Takes the sheet that a call gave, and prints what its answer tells to print.
fn print(
    rt: &(impl Print + Eprint),
    s: &mut Sheet,
    called: Outcome<Sheet, Answer>,
    line: &[u8],
) -> io::Result<()>
    ensures { s.new ≡ called.0 }
{
    let (after, answer) = called;
    *s = after;
    if let Ok(Answer::Line) = answer {
        write(rt, line)?;
    }
    Ok(())
}

// A field of the dump.
#[tactic(auto, using(crate::proofs::Onward::enter_onward))]
fn enter(rt: &(impl Print + Eprint), s: &mut Sheet, aux: &[u8]) -> io::Result<()>
    requires { length aux.now ≡ aux_length }
    ensures { Onward s.old s.new }
{
    let mut line = [0u8; LINE_LENGTH];
    let entered = s.enter(aux, &mut line);
    print(rt, s, entered, &line)
}

// The end of the dump.
#[tactic(auto, using(crate::proofs::Onward::finish_onward))]
fn finish(rt: &(impl Print + Eprint), s: &mut Sheet) -> io::Result<()>
    ensures { Onward s.old s.new }
{
    let mut line = [0u8; LINE_LENGTH];
    let finished = s.finish(&mut line);
    print(rt, s, finished, &line)
}

// Reads until buf is full or the input ends, and tells how many bytes it put at buf's start, which `read_exact` does not of a field that is cut short.
fn read_full(reader: &mut impl Read, buf: &mut [u8]) -> io::Result<usize>
    ensures { IfOk result (λ n. n ≤ length buf.new) }
{
    let mut done = 0;
    while done < buf.len() {
        let n = reader.read(&mut buf[done..])?;
        if n == 0 {
            break;
        }
        done += n;
    }
    Ok(done)
}

// What comes next on standard input. Where that can't be read, the sheet ends as at the dump's end. What is promised of the sheet holds beside an
// error, too.
fn turn(rt: &(impl Print + Eprint), reader: &mut impl Read, s: &mut Sheet) -> io::Result<()>
    ensures { Onward s.old s.new }
{
    let mut aux = [0u8; AUX_LENGTH];
    let n = match read_full(reader, &mut aux) {
        Ok(n) => n,
        Err(e) => {
            finish(rt, s)?;
            return Err(e);
        }
    };
    if n < AUX_LENGTH {
        return finish(rt, s);
    }
    enter(rt, s, &aux[..n])
}

fn main(rt: HostRuntime) -> io::Result<()> {
    let mut reader = rt.reader();
    let mut line = [0u8; LINE_LENGTH];
    let opened = Sheet::open(&mut line);
    let (mut s, _) = opened;
    print(&rt, &mut s, opened, &line)?;
    while !s.ended {
        turn(&rt, &mut reader, &mut s)?;
    }
    Ok(())
}

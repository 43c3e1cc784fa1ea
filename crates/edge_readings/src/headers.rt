// Refused openings, and the choice of the newer of two headers.
use buffer::be32_at;
use edge_output::{Shown, cartridge};
use edge_reader::{Reader, header, header_frame};
use frame::{Header, UPDATE_AT};
use header_choice::{choice_verdict, choose};
use std::io;

// Openings that are refused.
pub fn openings(rt: &impl Print) -> io::Result<()> {
    println!(rt; "headers: another name, 3,000 frames, a short one")?;
    let g = cartridge(1000, 12);
    Reader::open_named(rt, g, header(11999, 1, 16, 1), b'X')?.look()?;
    Reader::open(rt, cartridge(3000, 1), header(2999, 1, 16, 1))?.look()?;
    Reader::open_short(rt, g)?.look()
}

// The choice of two headers, the second with this byte in its name.
fn compare(rt: &impl Print, first: Header, second: Header, byte: u8) -> io::Result<()> {
    let g = cartridge(1000, 12);
    let one = header_frame(first);
    let mut other = header_frame(second);
    other[6] = byte;
    match choice_verdict(g, &one, &other) {
        Ok(()) => print!(rt; "accepted")?,
        Err(refusal) => print!(rt; "{}", Shown(refusal))?,
    }
    match choose(g, &one, &other) {
        [] => println!(rt; ", empty part"),
        chosen => println!(rt; ", update count {}", be32_at(chosen, UPDATE_AT)),
    }
}

// Choices between two headers.
pub fn choices(rt: &impl Print) -> io::Result<()> {
    println!(rt;
        "headers: the higher update count, in both orders; one invalid; one count, unlike data"
    )?;
    let older = header(11999, 1, 16, 1);
    let newer = header(11999, 2, 16, 2);
    compare(rt, older, newer, b'Q')?;
    compare(rt, newer, older, b'Q')?;
    compare(rt, older, newer, b'X')?;
    compare(rt, older, header(11999, 2, 16, 1), b'Q')
}

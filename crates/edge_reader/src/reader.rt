// Opening on headers, fetches and replies; a refusal is printed.
use buffer::byte_at;
use drive::{Command, Reply};
use edge_output::{Shown, end_of_data, good, session_of, unreadable};
use element_building::build_element;
use frame::{DATA_LENGTH, Element, FRAME_LENGTH, Header, Kind, NO_MARKER};
use geometry::{Address, Geometry, Refusal, Seq};
use header_building::build_header;
use header_choice::choose;
use reading::Reading;
use std::io;

// Where the access table's flags stand in a frame: AUX byte 66.
const FLAGS_AT: usize = DATA_LENGTH + 66;

// A header of no addition, with these fields.
pub fn header(last: u32, pass: u16, eod: u32, update: u32) -> Header {
    Header {
        last: Address(last),
        pass,
        eod: Address(eod),
        old: Address(0),
        update,
    }
}

// The opening header of an addition at an old end; it names no EOD.
pub fn opening_header(last: u32, pass: u16, update: u32, old: u32) -> Header {
    Header {
        old: Address(old),
        ..header(last, pass, 0, update)
    }
}

// A header's frame. The builder refuses no array of this length.
pub fn header_frame(h: Header) -> [u8; FRAME_LENGTH] {
    let mut frame = [0; FRAME_LENGTH];
    let _ = build_header(&mut frame, h);
    frame
}

// The frame of an element, whose block is filled with one byte; not refused either.
fn element_frame(element: Element, byte: u8) -> [u8; FRAME_LENGTH] {
    let mut frame = [0; FRAME_LENGTH];
    let _ = build_element(&mut frame, element, &[byte; DATA_LENGTH]);
    frame
}

// A session with where it prints.
#[derive(Drop)]
pub struct Reader<'a, P> {
    pub rt: &'a P,
    pub session: Reading,
}

impl<'a, P: Print> Reader<'a, P> {
    // Opens a reading on a buffer.
    fn open_frame(rt: &'a P, g: Geometry, frame: &[u8]) -> io::Result<Reader<'a, P>> {
        let session = session_of(rt, Reading::open(g, frame))?;
        Ok(Reader { rt, session })
    }

    // Opens a reading on a header that begins with "ADR_SE" and a byte, Q in a valid one.
    pub fn open_named(rt: &'a P, g: Geometry, h: Header, byte: u8) -> io::Result<Reader<'a, P>> {
        let mut frame = header_frame(h);
        frame[6] = byte;
        Reader::open_frame(rt, g, &frame)
    }

    // Opens a reading on a header.
    pub fn open(rt: &'a P, g: Geometry, h: Header) -> io::Result<Reader<'a, P>> {
        Reader::open_named(rt, g, h, b'Q')
    }

    // The same, and LOCATE 10 is answered good.
    pub fn located(rt: &'a P, g: Geometry, h: Header) -> io::Result<Reader<'a, P>> {
        let mut reader = Reader::open(rt, g, h)?;
        reader.play_sense(good(0))?;
        Ok(reader)
    }

    // Opens a reading on the newer of two headers.
    pub fn open_newer(
        rt: &'a P,
        g: Geometry,
        first: Header,
        second: Header,
    ) -> io::Result<Reader<'a, P>> {
        let one = header_frame(first);
        let other = header_frame(second);
        Reader::open_frame(rt, g, choose(g, &one, &other))
    }

    // Opens a reading on a buffer as long as a block.
    pub fn open_short(rt: &'a P, g: Geometry) -> io::Result<Reader<'a, P>> {
        Reader::open_frame(rt, g, &[0; DATA_LENGTH])
    }

    // The next command.
    fn fetch(&mut self) -> Result<Option<Command>, Refusal> {
        let (session, answer) = self.session.fetch();
        self.session = session;
        answer
    }

    // Brings the reply to it.
    fn reply(&mut self, reply: Reply, frame: &[u8]) -> Result<Option<Kind>, Refusal> {
        let (session, delivered) = self.session.reply(reply, frame);
        self.session = session;
        delivered
    }

    // Fetches and prints, with no end of the line.
    fn print_fetched(&mut self) -> io::Result<()> {
        match self.fetch() {
            Ok(Some(command)) => print!(self.rt; "{}", Shown(command)),
            Ok(None) => print!(self.rt; "end"),
            Err(refusal) => print!(self.rt; "{}", Shown(refusal)),
        }
    }

    // Fetches and prints, where no reply follows.
    pub fn look(&mut self) -> io::Result<()> {
        self.print_fetched()?;
        println!(self.rt)
    }

    // Fetches and prints a command, brings a reply to it and prints what that delivers.
    fn play(&mut self, reply: Reply, frame: &[u8]) -> io::Result<()> {
        self.print_fetched()?;
        print!(self.rt; ", {}: ", Shown(reply))?;
        match self.reply(reply, frame) {
            Ok(None) => println!(self.rt; "nothing"),
            Ok(Some(Kind::Data)) => println!(self.rt; "block, first byte {}", byte_at(frame, 0)),
            Ok(Some(Kind::Marker)) => println!(self.rt; "filemark"),
            Ok(Some(Kind::Eod)) => println!(self.rt; "end"),
            Err(refusal) => println!(self.rt; "{}", Shown(refusal)),
        }
    }

    // A reply that brings no frame; the one that is lent is blank.
    pub fn play_sense(&mut self, reply: Reply) -> io::Result<()> {
        self.play(reply, &[0; FRAME_LENGTH])
    }

    // An address at which nothing reads.
    pub fn play_unreadable(&mut self) -> io::Result<()> {
        self.play_sense(unreadable())
    }

    // An element of the reading's own pass. A reading looks at neither its filemarks nor its marker.
    pub fn element(&self, kind: Kind, number: u32) -> Element {
        let Header { last, pass, .. } = self.session.state.told;
        Element {
            kind,
            pass,
            last,
            seq: Seq(number),
            filemarks: 0,
            marker: Address(NO_MARKER),
        }
    }

    // A reply with the frame of an element, whose block is filled with one byte.
    pub fn play_frame(&mut self, reply: Reply, element: Element, byte: u8) -> io::Result<()> {
        self.play(reply, &element_frame(element, byte))
    }

    // An element of the reading's own pass, read without an error.
    pub fn play_element(&mut self, kind: Kind, number: u32, byte: u8) -> io::Result<()> {
        self.play_frame(good(0), self.element(kind, number), byte)
    }

    // An element of another pass.
    pub fn play_older(&mut self, pass: u16, kind: Kind, number: u32) -> io::Result<()> {
        let own = self.element(kind, number);
        self.play_frame(good(0), Element { pass, ..own }, 255)
    }

    // The frame of an element, but with flags 4C in its access table.
    pub fn play_foreign(&mut self, kind: Kind, number: u32) -> io::Result<()> {
        let mut frame = element_frame(self.element(kind, number), 0);
        frame[FLAGS_AT] = 0x4C;
        self.play(good(0), &frame)
    }

    // A command and its reply, not printed.
    fn skip(&mut self, reply: Reply) {
        let _ = self.fetch();
        let _ = self.reply(reply, &[0; FRAME_LENGTH]);
    }

    // n times 08/00/05 on a READ and good on the LOCATE behind it, not printed.
    pub fn jump(&mut self, n: u8) {
        for _ in 0..n {
            self.skip(end_of_data());
            self.skip(good(0));
        }
    }
}

// The calls of a sheet, each with what it prints.
use edge_output::Shown;
use element_building::build_element;
use frame::{AUX_LENGTH, DATA_LENGTH, Element, FRAME_LENGTH, Kind, NO_MARKER};
use geometry::{Address, Outcome, Seq};
use sheet::{Answer, LINE_LENGTH, Sheet};
use std::io;

// A sheet with where it prints.
#[derive(Drop)]
pub(crate) struct Clerk<'a, P> {
    pub(crate) rt: &'a P,
    pub(crate) sheet: Sheet,
}

impl<'a, P: Print> Clerk<'a, P> {
    // Prints what a call gave back: the line that it was lent, or that none is to be printed.
    fn print(rt: &'a P, returned: Outcome<Sheet, Answer>, line: &[u8]) -> io::Result<Clerk<'a, P>> {
        let (sheet, answer) = returned;
        match answer {
            Ok(Answer::Nothing) => println!(rt; "nothing")?,
            Ok(Answer::Line) => rt.write_all(line)?,
            Err(refusal) => println!(rt; "{}", Shown(refusal))?,
        }
        Ok(Clerk { rt, sheet })
    }

    // Opens a sheet.
    pub(crate) fn open(rt: &'a P) -> io::Result<Clerk<'a, P>> {
        let mut line = [0; LINE_LENGTH];
        let returned = Sheet::open(&mut line);
        Clerk::print(rt, returned, &line)
    }

    // Opens one with a line that is one byte short.
    pub(crate) fn open_short(rt: &'a P) -> io::Result<Clerk<'a, P>> {
        let mut line = [0; LINE_LENGTH - 1];
        let returned = Sheet::open(&mut line);
        Clerk::print(rt, returned, &line)
    }

    // A field, with a line of its own.
    fn enter_field(&mut self, aux: &[u8]) -> io::Result<()> {
        let mut line = [0; LINE_LENGTH];
        let returned = self.sheet.enter(aux, &mut line);
        *self = Clerk::print(self.rt, returned, &line)?;
        Ok(())
    }

    // The AUX field of a frame of this kind and number. The builder refuses no array of a frame's length.
    pub(crate) fn enter(&mut self, kind: Kind, number: u32) -> io::Result<()> {
        let element = Element {
            kind,
            pass: 1,
            last: Address(11999),
            seq: Seq(number),
            filemarks: 0,
            marker: Address(NO_MARKER),
        };
        let mut frame = [0; FRAME_LENGTH];
        let _ = build_element(&mut frame, element, &[0; DATA_LENGTH]);
        self.enter_field(&frame[DATA_LENGTH..])
    }

    // A field that is one byte short.
    pub(crate) fn enter_short(&mut self) -> io::Result<()> {
        self.enter_field(&[0; AUX_LENGTH - 1])
    }

    // The dump's end.
    pub(crate) fn finish(&mut self) -> io::Result<()> {
        let mut line = [0; LINE_LENGTH];
        let returned = self.sheet.finish(&mut line);
        *self = Clerk::print(self.rt, returned, &line)?;
        Ok(())
    }
}

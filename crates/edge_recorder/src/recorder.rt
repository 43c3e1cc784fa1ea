// Opening, accepts, close, fetches and replies; a refusal is printed.
use crate::tally::Tally;
use drive::Reply;
use edge_output::{Sent, Shown, good, session_of, write_error};
use frame::{DATA_LENGTH, FRAME_LENGTH};
use geometry::{Geometry, Outcome, Refusal};
use recording::{Answer, Recording, Sizes, Stage};
use std::io;

// A session with where it prints, the window that it is lent, and what its replies have told so far.
#[derive(Drop)]
pub struct Recorder<'a, P> {
    pub rt: &'a P,
    pub session: Recording,
    window: &'a mut [u8],
    // Whether what is fetched is printed.
    shown: bool,
    // Of elements and EOD.
    pub elements: Tally,
    pub headers: Tally,
}

impl<'a, P: Print> Recorder<'a, P> {
    // The recording that a call has opened.
    pub fn opened(
        rt: &'a P,
        window: &'a mut [u8],
        returned: Outcome<Recording>,
    ) -> io::Result<Recorder<'a, P>> {
        Ok(Recorder {
            rt,
            session: session_of(rt, returned)?,
            window,
            shown: true,
            elements: Tally::default(),
            headers: Tally::default(),
        })
    }

    // One on a cartridge with no header, for a drive that buffers 16 frames, with a window of so many blocks and a tail of so many frames.
    pub fn open(
        rt: &'a P,
        window: &'a mut [u8],
        g: Geometry,
        blocks: u8,
        tail: u8,
    ) -> io::Result<Recorder<'a, P>> {
        let sizes = Sizes {
            depth: 16,
            blocks,
            tail,
        };
        Recorder::opened(rt, window, Recording::open_blank(g, sizes))
    }

    // Goes on with the session that a call gave back.
    fn take(&mut self, returned: Outcome<Recording>) -> io::Result<()> {
        self.session = session_of(self.rt, returned)?;
        Ok(())
    }

    // Accepts a filemark.
    pub fn accept_filemark(&mut self) -> io::Result<()> {
        self.take(self.session.accept_filemark())
    }

    // Accepts n filemarks.
    pub fn accept_filemarks(&mut self, n: u8) -> io::Result<()> {
        for _ in 0..n {
            self.accept_filemark()?;
        }
        Ok(())
    }

    // Accepts a block.
    pub fn accept_block(&mut self) -> io::Result<()> {
        let block = [0x5A; DATA_LENGTH];
        let returned = self.session.accept_block(&block, self.window);
        self.take(returned)
    }

    // Accepts n blocks.
    pub fn accept_blocks(&mut self, n: u8) -> io::Result<()> {
        for _ in 0..n {
            self.accept_block()?;
        }
        Ok(())
    }

    // Closes.
    pub fn close(&mut self) -> io::Result<()> {
        self.take(self.session.close())
    }

    fn print_answer(&self, answer: Result<Answer, Refusal>, frame: &[u8]) -> io::Result<()> {
        match answer {
            Ok(Answer::Command(command)) => println!(self.rt; "{}", Sent { command, frame }),
            Ok(Answer::Idle) => println!(self.rt; "idle"),
            Ok(Answer::Done) => println!(self.rt; "done"),
            Err(refusal) => println!(self.rt; "{}", Shown(refusal)),
        }
    }

    // Fetches and prints.
    pub fn look(&mut self) -> io::Result<()> {
        let mut frame = [0; FRAME_LENGTH];
        let (session, answer) = self.session.fetch(self.window, &mut frame);
        self.session = session;
        if self.shown {
            self.print_answer(answer, &frame)?;
        }
        Ok(())
    }

    // Fetches and prints a command, brings a reply to it, and counts what that tells.
    pub fn play(&mut self, reply: Reply) -> io::Result<()> {
        let stage = self.session.state.stage;
        self.look()?;
        let command = self.session.state.exchange.command;
        match stage {
            Stage::Elements => self.elements.count(command, reply),
            _ => self.headers.count(command, reply),
        }
        self.take(self.session.reply(reply))
    }

    // n commands, each answered good with nothing buffered.
    pub fn play_good(&mut self, n: u8) -> io::Result<()> {
        for _ in 0..n {
            self.play(good(0))?;
        }
        Ok(())
    }

    // The same, not printed.
    pub fn skip_good(&mut self, n: u8) -> io::Result<()> {
        self.shown = false;
        self.play_good(n)?;
        self.shown = true;
        Ok(())
    }

    // n commands answered good, and one with a write error at an address with a skip.
    pub fn play_error(&mut self, n: u8, at: u32, skip: u8) -> io::Result<()> {
        self.play_good(n)?;
        self.play(write_error(at, skip))
    }

    // n write errors with skip 255, from address 10 on, each behind LOCATE and WRITE.
    pub fn play_errors(&mut self, n: u8) -> io::Result<()> {
        for k in 0..n {
            self.play_error(2, 10 + 255 * u32::from(k), 255)?;
        }
        Ok(())
    }

    // The same, and one more with another skip, not printed.
    pub fn skip_errors(&mut self, n: u8, skip: u8) -> io::Result<()> {
        self.shown = false;
        self.play_errors(n)?;
        self.play_error(2, 10 + 255 * u32::from(n), skip)?;
        self.shown = true;
        Ok(())
    }

    // The ten header copies, of which the first is printed.
    pub fn play_headers(&mut self) -> io::Result<()> {
        self.play_good(2)?;
        self.skip_good(behind_first_copy(self.session.state.setup.depth))
    }

    // n commands up to the closing headers, these, and done.
    pub fn run_out(&mut self, n: u8) -> io::Result<()> {
        self.play_good(n)?;
        self.play_headers()?;
        self.look()
    }

    // Close, and the rest.
    pub fn finish(&mut self, n: u8) -> io::Result<()> {
        self.close()?;
        self.run_out(n)
    }
}

// The commands of ten header copies but the first LOCATE and WRITE: a READ POSITION follows each D copies of a group and its last.
fn behind_first_copy(depth: u8) -> u8 {
    match depth {
        1 => 20,
        2 => 16,
        3 | 4 => 14,
        _ => 12,
    }
}

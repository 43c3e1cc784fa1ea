// The state of a session, what its calls return, and the steps that several of them take.
ghost use Rattle.std.specs.Prelude.{◌≡◌, ◌%◌};
ghost use Rattle.geometry.specs.Refusal.{refusal_number};
ghost use Rattle.elements.specs.Queue.{number_of};
ghost use Rattle.recording_state.specs.Reply.{completed_of};
ghost use Rattle.recording_state.specs.State.{following_of, blocks_of, is_spending, ended_of};
ghost use Rattle.recording_state.specs.State.{given_up_of, eod_due, closing_started, settled_of};

use carried_headers::closing_header;
use copies::Copies;
use drive::{Command, Exchange};
use elements::Elements;
use geometry::Refusal;

// What the session writes at present.
#[derive(Clone, Copy, PartialEq, Eq)]
pub enum Stage {
    OpeningHeaders,
    // The LOCATE of the first element's address, the elements and EOD.
    Elements,
    ClosingHeaders,
    Done,
}

// The stage behind this one.
fn following(stage: Stage) -> Stage
    ensures { result ≡ following_of stage }
{
    match stage {
        Stage::OpeningHeaders => Stage::Elements,
        Stage::Elements => Stage::ClosingHeaders,
        _ => Stage::Done,
    }
}

// The sizes that an opening is given.
#[derive(Clone, Copy)]
pub struct Sizes {
    // D, the frames that the drive buffers.
    pub depth: u8,
    // W, the blocks of the window.
    pub blocks: u8,
    // T, the frames at the end of the tape that are kept for EOD.
    pub tail: u8,
}

// What a session holds of them.
#[derive(Clone, Copy, Default)]
pub struct Setup {
    // D, the frames that the drive buffers.
    pub depth: u8,
    // W - 1, the highest block of the window: so every session's window has a block, whatever C hands in.
    pub highest: u8,
    // T, the frames at the end of the tape that are kept for EOD.
    pub tail: u8,
}

// All that a session holds between two calls. C hands in its flags in every combination (`is_recording`), for which a type of states has no room.
#[derive(Clone, Copy)]
pub struct State {
    pub setup: Setup,
    pub stage: Stage,
    pub exchange: Exchange,
    // Whether close was called.
    pub closed: bool,
    // Whether a refusal of 8 or more has ended the session, or a refused opening gave it.
    pub ended: bool,
    // Whether it is spent: a 9 for an element has ended it, and close can be called once more.
    pub spent: bool,
    pub copies: Copies,
    pub elements: Elements,
}

// The answer to a fetch. The host sends a command once, a WRITE with the frame that the fetch filled, and brings its reply.
#[derive(Clone, Copy)]
pub enum Answer {
    Command(Command),
    Idle,
    Done,
}

impl State {
    // W, the number of blocks of the window.
    pub fn blocks(self) -> usize
        ensures { result ≡ blocks_of self }
    {
        (self.setup.highest as usize) + 1
    }

    // The window block of the element n behind the queue's oldest: its number mod W.
    pub fn place(self, n: u16) -> usize
        ensures { result ≡ (number_of self.elements.queue n).0 % blocks_of self }
    {
        (self.elements.queue.number(n).0 as usize) % self.blocks()
    }

    // Whether a refusal spends the session.
    fn is_spending(self, refusal: Refusal) -> bool
        ensures { result ≡ is_spending self (refusal_number refusal) }
    {
        refusal == Refusal::TapeFull && 0 < self.setup.tail && !self.elements.eod
    }

    // Refusals from 8 on end the session, for good unless it is spent.
    pub fn ended_by(self, refusal: Refusal) -> State
        ensures { result ≡ ended_of self (refusal_number refusal) }
    {
        State {
            ended: true,
            spent: self.is_spending(refusal),
            ..self
        }
    }

    // Close of a spent session: what is not on tape is given up, and EOD is due.
    pub fn give_up(self) -> State
        ensures { result ≡ given_up_of self }
    {
        State {
            exchange: Exchange::unsent(),
            closed: true,
            ended: false,
            spent: false,
            elements: self.elements.give_up(),
            ..self
        }
    }

    // The header copies of this stage are through.
    pub fn complete(self) -> State
        ensures { result ≡ completed_of self }
    {
        State {
            stage: following(self.stage),
            ..self
        }
    }

    // EOD is due, behind the last element.
    fn due_eod(self) -> State
        ensures { result ≡ eod_due self }
    {
        State {
            elements: self.elements.due_eod(),
            ..self
        }
    }

    // EOD is on tape, and the closing headers are due.
    fn start_closing(self) -> State
        ensures { result ≡ closing_started self }
    {
        let header = closing_header(self.copies.header, self.elements.course.next);
        State {
            stage: Stage::ClosingHeaders,
            copies: Copies::start(header),
            ..self
        }
    }

    // Goes on where nothing is left to confirm: to the closing headers behind EOD, to EOD after close.
    #[tactic(auto, unfolding(crate::specs::State::settled_of))]
    pub fn settle(self) -> State
        ensures { result ≡ settled_of self }
    {
        if 0 < self.elements.queue.pending {
            return self;
        }
        match self.stage {
            Stage::Elements if self.elements.eod => self.start_closing(),
            Stage::Elements if self.closed => self.due_eod(),
            _ => self,
        }
    }
}

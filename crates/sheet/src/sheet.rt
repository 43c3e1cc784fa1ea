// The sheet while a dump is read: which job is open, and which number comes next.
ghost use Rattle.std.specs.Prelude.{◌≡◌, ◌≤◌, Some};
ghost use Rattle.sheet.specs.Answer.{entered_said};
ghost use Rattle.sheet.specs.Step.{highest_number, entry_of, blocks_of, ended_of, broken_off, closing, step_of};
ghost use Rattle.sheet.specs.Calls.{open_of, enter_of, finish_of};
ghost use Rattle.frame.specs.declared.element.Kind.TheVariants.{Marker, Eod};
ghost use Rattle.sheet.specs.Promises.{Promises};

use crate::line::{ASTERISKS, HEADING, LINE_LENGTH, put_line};
use buffer::{be16_at, be32_at};
use frame::{AUX_LENGTH, DATA_TYPE, EOD_TYPE, Kind, MARKER_TYPE};
use geometry::{Outcome, Refusal};

// The highest job that has a line.
const LAST_JOB: u32 = 99999;

// Where type and sequence number stand in the AUX.
const TYPE_AT: u16 = 16;

const NUMBER_AT: u16 = 44;

// A sheet between two fields. C hands in an ended one with every number.
#[derive(Clone, Copy)]
pub struct Sheet {
    // The open job, from 1.
    pub job: u32,
    // The number of its first element, and the number that comes next: of 64 bits, since that may be one above the highest of 32.
    pub first: u64,
    pub next: u64,
    pub ended: bool,
}

// Nothing is to be printed, or the lent line is.
#[derive(Clone, Copy)]
pub enum Answer {
    Nothing,
    Line,
}

// What a field of this type and number is, where this number comes next; `None` where it is wrong. Type and number decide together, so the type
// alone is not made a kind first.
fn entry_at(next: u64, kind: u16, number: u32) -> Option<Kind>
    ensures { result ≡ entry_of next kind number }
{
    let n = number as u64;
    match kind {
        DATA_TYPE if n == next => Some(Kind::Data),
        MARKER_TYPE if n == next => Some(Kind::Marker),
        EOD_TYPE if n == next || n + 1 == next => Some(Kind::Eod),
        _ => None,
    }
}

impl Sheet {
    // The blocks of the open job.
    fn blocks(self) -> u64
        ensures { result ≡ blocks_of self }
    {
        self.next.saturating_sub(self.first)
    }

    // The sheet, ended.
    fn end(self) -> Sheet
        ensures { result ≡ ended_of self }
    {
        Sheet {
            ended: true,
            ..self
        }
    }

    // The sheet ends with a line of asterisks.
    #[tactic(auto, unfolding(crate::specs::Line::asterisks))]
    fn break_off(self, line: &mut [u8; LINE_LENGTH]) -> Outcome<Sheet, Answer>
        ensures { entered_said result line.new ≡ broken_off self }
    {
        *line = ASTERISKS;
        (self.end(), Ok(Answer::Line))
    }

    // The open job is closed: its line, and the sheet as it then is.
    fn close(self, after: Sheet, line: &mut [u8; LINE_LENGTH]) -> Outcome<Sheet, Answer>
        ensures { entered_said result line.new ≡ closing self after }
    {
        if self.job > LAST_JOB {
            return self.break_off(line);
        }
        put_line(line, self.job as u64, self.first, self.blocks());
        (after, Ok(Answer::Line))
    }

    // A filemark closes the open job. Behind a job above the last no other is opened, so its number may wrap.
    #[tactic(auto, unfolding(crate::specs::Step::step_of))]
    fn enter_filemark(self, line: &mut [u8; LINE_LENGTH]) -> Outcome<Sheet, Answer>
        requires { self.next ≤ highest_number }
        ensures { entered_said result line.new ≡ step_of self (Some Marker) line.old }
    {
        let next = self.next + 1;
        let after = Sheet {
            job: self.job.wrapping_add(1),
            first: next,
            next,
            ..self
        };
        self.close(after, line)
    }

    // EOD ends the sheet, and closes the open job if it has blocks.
    #[tactic(auto, unfolding(crate::specs::Step::step_of))]
    fn enter_end(self, line: &mut [u8; LINE_LENGTH]) -> Outcome<Sheet, Answer>
        ensures { entered_said result line.new ≡ step_of self (Some Eod) line.old }
    {
        let after = self.end();
        if self.next <= self.first {
            return (after, Ok(Answer::Nothing));
        }
        self.close(after, line)
    }

    // A field of this type and number, while the sheet is not ended.
    #[tactic(auto, unfolding(crate::specs::Step::step_of))]
    fn step(self, kind: u16, number: u32, line: &mut [u8; LINE_LENGTH]) -> Outcome<Sheet, Answer>
        ensures { entered_said result line.new ≡ step_of self (entry_of self.next kind number) line.old }
    {
        match entry_at(self.next, kind, number) {
            Some(Kind::Data) => {
                let after = Sheet {
                    next: self.next + 1,
                    ..self
                };
                (after, Ok(Answer::Nothing))
            }
            Some(Kind::Marker) => self.enter_filemark(line),
            Some(Kind::Eod) => self.enter_end(line),
            None => self.break_off(line),
        }
    }

    // A new sheet, and its heading. What the calls print of every dump stands in its contract, so that no change of the code can lose it unnoticed.
    #[tactic(auto, using(crate::proofs::Promises::promises), unfolding(crate::specs::Calls::open_of, crate::specs::Line::heading))]
    pub fn open(line: &mut [u8]) -> Outcome<Sheet, Answer>
        ensures { (entered_said result line.new ≡ open_of line.old) × Promises }
    {
        let s = Sheet {
            job: 1,
            first: 0,
            next: 0,
            ended: false,
        };
        let Some(line) = line.as_mut_array::<LINE_LENGTH>() else {
            return (s.end(), Err(Refusal::Length));
        };
        // Assigned, it would be stored in a dozen pieces.
        line.copy_from_slice(&HEADING);
        (s, Ok(Answer::Line))
    }

    // The next AUX field of the dump.
    #[tactic(auto, unfolding(crate::specs::Calls::enter_of))]
    pub fn enter(self, aux: &[u8], line: &mut [u8]) -> Outcome<Sheet, Answer>
        ensures { entered_said result line.new ≡ enter_of self aux.now line.old }
    {
        if aux.len() != AUX_LENGTH {
            return (self, Err(Refusal::Length));
        }
        let Some(line) = line.as_mut_array() else {
            return (self, Err(Refusal::Length));
        };
        if self.ended {
            return (self, Ok(Answer::Nothing));
        }
        self.step(be16_at(aux, TYPE_AT), be32_at(aux, NUMBER_AT), line)
    }

    // The end of the dump: the sheet breaks off unless it has ended.
    #[tactic(auto, unfolding(crate::specs::Calls::finish_of))]
    pub fn finish(self, line: &mut [u8]) -> Outcome<Sheet, Answer>
        ensures { entered_said result line.new ≡ finish_of self line.old }
    {
        let Some(line) = line.as_mut_array() else {
            return (self, Err(Refusal::Length));
        };
        if self.ended {
            return (self, Ok(Answer::Nothing));
        }
        self.break_off(line)
    }
}

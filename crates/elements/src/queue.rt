// The elements that are not known to be on tape.
ghost use Rattle.std.specs.Prelude.{◌≡◌};
ghost use Rattle.elements.specs.Queue.{empty_from, number_of, mark_place, accepted_of, mark_at};

use frame::MOST_BLOCKS;
use geometry::Seq;

// How many marks there are: as many as a window may have blocks, so that all elements that a session holds have one.
pub const MARKS: usize = MOST_BLOCKS as usize;

// They are in order, the oldest first; EOD is the last of them once it is due. C hands in every combination of the counts (`is_recording`).
#[derive(Clone, Copy)]
pub struct Queue {
    // The number of the oldest, or of the next to be accepted if there is none.
    pub first: Seq,
    // How many there are.
    pub pending: u16,
    // How many of them, from the oldest on, the drive has taken.
    pub outstanding: u16,
    // Whether element i is a filemark stands at i % `MARKS`.
    pub marks: [bool; MARKS],
}

impl Queue {
    // None yet; the first gets this number.
    pub(crate) fn start(number: Seq) -> Queue
        ensures { result ≡ empty_from number }
    {
        Queue {
            first: number,
            pending: 0,
            outstanding: 0,
            marks: [false; MARKS],
        }
    }

    // The number of the element n behind the oldest.
    pub fn number(self, n: u16) -> Seq
        ensures { result ≡ number_of self n }
    {
        Seq(self.first.0.wrapping_add(n as u32))
    }

    // Where it is told whether the element n behind the oldest is a filemark.
    fn mark_place(&self, n: u16) -> usize
        ensures { result ≡ mark_place self.now.first n }
    {
        ((self.first.0 % (MARKS as u32) + (n as u32)) % (MARKS as u32)) as usize
    }

    // One more, which is a filemark or not.
    pub(crate) fn accept(mut self, mark: bool) -> Queue
        ensures { result ≡ accepted_of self mark }
    {
        let place = self.mark_place(self.pending);
        self.marks[place] = mark;
        self.pending = self.pending.wrapping_add(1);
        self
    }

    // Whether the element n behind the oldest is a filemark. The queue is lent: `trail_after` asks for each element in turn, and would copy all marks
    // for each.
    pub(crate) fn is_mark(&self, n: u16) -> bool
        ensures { result ≡ mark_at self.now n }
    {
        self.marks[self.mark_place(n)]
    }
}

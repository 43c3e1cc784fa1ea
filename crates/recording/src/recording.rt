// The session that a host holds, and its calls (01, "A recording session"). Each is the call of a crate below on the session's state. 01,
// "Refused calls", has the refusals: 1 to 7 leave the session as it is, those from 8 on end it, and then every call is refused with 7.
ghost use Rattle.std.specs.Prelude.{◌≡◌};
ghost use Rattle.recording_state.specs.Open.{open_of, open_blank_of};
ghost use Rattle.recording_state.specs.Accept.{filemark_of, block_of, close_of};
ghost use Rattle.recording_state.specs.Fetch.{fetch_of};
ghost use Rattle.recording_state.specs.Reply.{reply_of};
ghost use Rattle.recording.specs.Recording.{outcome_said, stored_said, fetched_said};

use drive::Reply;
use geometry::{Geometry, Outcome};
use recording_state::{Answer, Sizes, State};

// A recording session. Each call takes it whole and gives it back.
#[derive(Clone, Copy)]
pub struct Recording {
    pub state: State,
}

// What a call on the state returned, for the session that holds it.
pub fn holding<T>(returned: Outcome<State, T>) -> Outcome<Recording, T>
    ensures session { result.0.state ≡ returned.0 }
    ensures answer { result.1 ≡ returned.1 }
{
    let (state, answer) = returned;
    (Recording { state }, answer)
}

impl Recording {
    // Opens a recording on the newest header of the cartridge, a frame of 33,280 bytes. Refused with 1 to 5; the session is then an ended one.
    pub fn open(g: Geometry, sizes: Sizes, header: &[u8]) -> Outcome<Recording>
        ensures { outcome_said result ≡ open_of g sizes.depth sizes.blocks sizes.tail header.now }
    {
        holding(recording_opening::open(g, sizes, header))
    }

    // Opens one on a cartridge that holds no valid header. Refused with 2 and 4.
    pub fn open_blank(g: Geometry, sizes: Sizes) -> Outcome<Recording>
        ensures { outcome_said result ≡ open_blank_of g sizes.depth sizes.blocks sizes.tail }
    {
        holding(recording_opening::open_blank(g, sizes))
    }

    // Accepts a filemark. Refused with 7 after close, with 6 where W elements are not yet on tape.
    pub fn accept_filemark(self) -> Outcome<Recording>
        ensures { outcome_said result ≡ filemark_of self.state }
    {
        holding(recording_accepting::accept_filemark(self.state))
    }

    // Accepts a block of 32,768 bytes and copies it into the window of W blocks, which has to keep it until the drive has told that it is on
    // tape. Refused as a filemark is, and with 1 for a wrong length.
    pub fn accept_block(self, block: &[u8], window: &mut [u8]) -> Outcome<Recording>
        ensures { stored_said result window.new ≡ block_of self.state block.now window.old }
    {
        holding(recording_accepting::accept_block(self.state, block, window))
    }

    // No element is accepted any more; EOD and the closing headers follow. Refused with 7 the second time. After a 9 for an element, where a
    // tail is kept, it may be called once more, and gives up what is not on tape (02, Card 6).
    pub fn close(self) -> Outcome<Recording>
        ensures { outcome_said result ≡ close_of self.state }
    {
        holding(recording_accepting::close(self.state))
    }

    // The next command, or idle, or done. The window is lent as the accepts left it; the frame, of 33,280 bytes, is filled for a WRITE and else
    // left alone. Refused with 7 while a reply is awaited, with 1 for a wrong length, with 9 where the tape is full.
    pub fn fetch(self, window: &[u8], frame: &mut [u8]) -> Outcome<Recording, Answer>
        ensures { fetched_said result frame.new ≡ fetch_of self.state window.now frame.old }
    {
        holding(recording_fetching::fetch(self.state, window, frame))
    }

    // Brings the reply to the last command (01, "Replies"). Refused with 7 where none is awaited, with 8 where the drive could not
    // lawfully give it, with 9 where the tape is full, with 12 where none of the ten header copies is good.
    pub fn reply(self, reply: Reply) -> Outcome<Recording>
        ensures { outcome_said result ≡ reply_of self.state reply }
    {
        holding(recording_replying::reply(self.state, reply))
    }
}

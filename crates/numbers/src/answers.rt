// What a call answers, by number: one number for one meaning in every call. They are the numbers of adr.h, as C's structs hold them.
ghost use Rattle.std.specs.Prelude.{◌≡◌};
ghost use Rattle.geometry.specs.Refusal.{verdict_number};

use geometry::Refusal;

// The call is refused; the number of the refusal comes beside it.
pub const REFUSED: u8 = 0;

// A command is to go to the drive.
pub const COMMAND: u8 = 1;

// Nothing is to be done until an element is accepted or the session closed.
pub const IDLE: u8 = 2;

// A recording is closed and on tape.
pub const DONE: u8 = 3;

// A reading is at its end.
pub const END: u8 = 4;

// A reply delivers nothing, or nothing is to be printed.
pub const NOTHING: u8 = 5;

// A reply delivers a block.
pub const BLOCK: u8 = 6;

// A reply delivers a filemark.
pub const FILEMARK: u8 = 7;

// The lent line is to be printed.
pub const LINE: u8 = 8;

// The number of the refusal, 0 for none.
pub fn verdict_number(v: Result<(), Refusal>) -> u8
    ensures { result ≡ verdict_number v }
{
    match v {
        Ok(()) => 0,
        Err(r) => r.number(),
    }
}

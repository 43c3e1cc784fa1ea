// The call that opens a recording at the end of a reading. Numbers that are no reading's are refused with 7, as a reading that is not at its end is.
ghost use Rattle.std.specs.Prelude.{◌≡◌};
ghost use Rattle.numbers.specs.Arguments.{fitting_of, fitting_depth};
ghost use Rattle.adr.specs.Add.{at_end_through};

use adding::{open_at_end, open_at_none};
use numbers::sizes_of;
use reading::Reading;
use reading_state::State;
use reading_twins::AdrReading;
use recording_answers::AdrRecordOutcome;

// Opens a recording at the end of a reading, which is not used up.
#[unsafe(no_mangle)]
#[tactic(auto, unfolding(crate::specs::Add::at_end_through))]
pub extern "C" fn adr_record_open_at_end(
    reading: AdrReading,
    depth: u32,
    blocks: u32,
    tail: u32,
) -> AdrRecordOutcome
    ensures { result ≡ at_end_through reading (fitting_depth depth tail) (fitting_of blocks) (fitting_of tail) }
{
    match State::try_from(reading) {
        Ok(state) => open_at_end(Reading { state }, sizes_of(depth, blocks, tail)).into(),
        Err(_) => open_at_none().into(),
    }
}

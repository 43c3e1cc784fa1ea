// The public call that opens a recording behind what a reading has delivered (02, Card 1).
#![tactic(auto)]

ghost use Rattle.std.specs.Prelude.{◌≡◌};
ghost use Rattle.recording.specs.Recording.{outcome_said};
ghost use Rattle.recording_state.specs.Open.{open_refused};
ghost use Rattle.adding_opening.specs.AtEnd.{open_at_end_of};

use geometry::{Outcome, Refusal};
use reading::Reading;
use recording::{Recording, Sizes, holding};
use recording_opening::refuse_opening;

// Opens a recording at the end of a reading. The reading is not used up. Refused with 7 where the reading is not at its end, with 4 for the
// sizes, with 5 by the header's update count, with 13 where the header names no EOD or another; the session is then an ended one.
pub fn open_at_end(reading: Reading, sizes: Sizes) -> Outcome<Recording>
    ensures { outcome_said result ≡ open_at_end_of reading.state sizes.depth sizes.blocks sizes.tail }
{
    holding(adding_opening::open_at_end(reading.state, sizes))
}

// The same where there is no reading that could be at its end: refused.
pub fn open_at_none() -> Outcome<Recording>
    ensures { outcome_said result ≡ open_refused 7 }
{
    holding(refuse_opening(Refusal::Phase))
}

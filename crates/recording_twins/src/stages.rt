// Stages as numbers.
ghost use Rattle.std.specs.Prelude.{◌≡◌};
ghost use Rattle.recording_twins.specs.Stages.{stage_of};

use recording_state::Stage;

// The stage that has this number, the last one for any other. No `From`, since neither type is of this crate.
pub(crate) fn stage_of(n: u8) -> Stage
    ensures { result ≡ stage_of n }
{
    match n {
        0 => Stage::OpeningHeaders,
        1 => Stage::Elements,
        2 => Stage::ClosingHeaders,
        _ => Stage::Done,
    }
}

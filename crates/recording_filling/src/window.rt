// A block of the window, of which `recording_accepting` has the other side.
ghost use Rattle.std.specs.Prelude.{◌≡◌, ◌+◌, ◌*◌, ◌≤◌, ◌<◌, length};
ghost use Rattle.frame.specs.Lengths.{data_length};
ghost use Rattle.recording_state.specs.Window.{block_at};

use frame::DATA_LENGTH;

// The window's block i.
#[tactic(auto, using(recording_state::proofs::BlockPlace::part_is_block))]
pub(crate) fn block_at(window: &[u8], i: usize) -> &[u8]
    requires i_bound { i < 256 }
    requires data_length_in_bounds { i * data_length + data_length ≤ length window.now }
    ensures { result.now ≡ block_at window.now i }
{
    let at = i * DATA_LENGTH;
    let end = at + DATA_LENGTH;
    &window[at..end]
}

// Storing in the window, of which `recording_filling` has the other side.
ghost use Rattle.std.specs.Prelude.{◌≡◌, ◌+◌, ◌*◌, ◌≤◌, ◌<◌, length};
ghost use Rattle.frame.specs.Lengths.{data_length};
ghost use Rattle.recording_state.specs.Window.{put_block};

use buffer_writing::copy_all;
use frame::DATA_LENGTH;

// Puts a block in the place of the window's block i.
pub(crate) fn put_block(window: &mut [u8], i: usize, block: &[u8])
    requires i_bound { i < 256 }
    requires data_length_in_bounds { i * data_length + data_length ≤ length window.old }
    requires block_len { length block.now ≡ data_length }
    ensures { window.new ≡ put_block window.old i block.now }
{
    let at = i * DATA_LENGTH;
    let end = at + DATA_LENGTH;
    copy_all(&mut window[at..end], block);
}

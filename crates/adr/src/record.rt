// The calls of a recording session. Numbers that are no session's come back as they are, refused with 7.
ghost use Rattle.std.specs.Prelude.{◌≡◌};
ghost use Rattle.recording_state.specs.Open.{open_of, open_blank_of};
ghost use Rattle.recording_state.specs.Accept.{filemark_of, close_of};
ghost use Rattle.recording_state.specs.Reply.{reply_of};
ghost use Rattle.numbers.specs.Arguments.{geometry_of, fitting_of, fitting_depth, as_reply};
ghost use Rattle.recording_answers.specs.Recording.{outcome_twin};
ghost use Rattle.adr.specs.Record.{through, stored, block_through, fetched, fetch_through};

use numbers::{AdrGeometry, AdrReply, sizes_of};
use recording::Recording;
use recording_answers::{AdrRecordFetched, AdrRecordOutcome};
use recording_state::State;
use recording_twins::AdrRecording;

// Opens a recording on the newest header of the cartridge.
#[unsafe(no_mangle)]
pub extern "C" fn adr_record_open(
    g: AdrGeometry,
    depth: u32,
    blocks: u32,
    tail: u32,
    header: &[u8],
) -> AdrRecordOutcome
    ensures { result ≡ outcome_twin (open_of (geometry_of g) (fitting_depth depth tail) (fitting_of blocks) (fitting_of tail) header.now) }
{
    Recording::open(g.into(), sizes_of(depth, blocks, tail), header).into()
}

// Opens one on a cartridge that holds no valid header.
#[unsafe(no_mangle)]
pub extern "C" fn adr_record_open_blank(
    g: AdrGeometry,
    depth: u32,
    blocks: u32,
    tail: u32,
) -> AdrRecordOutcome
    ensures { result ≡ outcome_twin (open_blank_of (geometry_of g) (fitting_depth depth tail) (fitting_of blocks) (fitting_of tail)) }
{
    Recording::open_blank(g.into(), sizes_of(depth, blocks, tail)).into()
}

// Accepts a filemark.
#[unsafe(no_mangle)]
#[tactic(auto, unfolding(crate::specs::Record::through))]
pub extern "C" fn adr_record_filemark(s: AdrRecording) -> AdrRecordOutcome
    ensures { result ≡ through filemark_of s }
{
    let Ok(state) = State::try_from(s) else {
        return AdrRecordOutcome::unknown(s);
    };
    Recording { state }.accept_filemark().into()
}

// Accepts a block and copies it into the window.
#[unsafe(no_mangle)]
#[tactic(auto, unfolding(crate::specs::Record::block_through))]
pub extern "C" fn adr_record_block(
    s: AdrRecording,
    block: &[u8],
    window: &mut [u8],
) -> AdrRecordOutcome
    ensures { stored result window.new ≡ block_through s block.now window.old }
{
    let Ok(state) = State::try_from(s) else {
        return AdrRecordOutcome::unknown(s);
    };
    Recording { state }.accept_block(block, window).into()
}

// Ends the accepts; after a full tape gives up what is not on it.
#[unsafe(no_mangle)]
#[tactic(auto, unfolding(crate::specs::Record::through))]
pub extern "C" fn adr_record_close(s: AdrRecording) -> AdrRecordOutcome
    ensures { result ≡ through close_of s }
{
    let Ok(state) = State::try_from(s) else {
        return AdrRecordOutcome::unknown(s);
    };
    Recording { state }.close().into()
}

// Brings the drive's reply.
#[unsafe(no_mangle)]
#[tactic(auto, unfolding(crate::specs::Record::through))]
pub extern "C" fn adr_record_reply(s: AdrRecording, reply: AdrReply) -> AdrRecordOutcome
    ensures { result ≡ through (λ t. reply_of t (as_reply reply)) s }
{
    let Ok(state) = State::try_from(s) else {
        return AdrRecordOutcome::unknown(s);
    };
    Recording { state }.reply(reply.into()).into()
}

// The next command of a recording, with the frame of a WRITE, or idle, or done.
#[unsafe(no_mangle)]
#[tactic(auto, unfolding(crate::specs::Record::fetch_through))]
pub extern "C" fn adr_record_fetch(
    s: AdrRecording,
    window: &[u8],
    frame: &mut [u8],
) -> AdrRecordFetched
    ensures { fetched result frame.new ≡ fetch_through s window.now frame.old }
{
    let Ok(state) = State::try_from(s) else {
        return AdrRecordFetched::unknown(s);
    };
    Recording { state }.fetch(window, frame).into()
}

// What a reply tells of the frames that the drive was sent.
use geometry::Address;

// A reply other than busy, by what it reports. Which machine takes it goes by the session's stage.
#[derive(Clone, Copy)]
pub enum Report {
    // The drive has gone to this address, as a LOCATE asked.
    Located(Address),
    // The drive has taken the frame of a WRITE.
    Taken,
    // So many frames are still buffered.
    Counted(u32),
    // The frame at this address failed; so many addresses are to be skipped.
    Failed(Address, u8),
    // The WRITE to this address was not executed, for want of room.
    Overflowed(Address),
}

// Lengths, in bytes, and the window's in blocks.

// A frame: data and then AUX.
pub const FRAME_LENGTH: usize = 33280;

// The data of a frame, and a block.
pub const DATA_LENGTH: usize = 32768;

// The AUX of a frame.
pub const AUX_LENGTH: usize = 512;

// Where the AUX starts in a frame, as the readers of bytes count.
pub const AUX_START: u16 = DATA_LENGTH as u16;

// The most blocks that a window may have.
pub const MOST_BLOCKS: u8 = 64;

// Replies and cartridges.
use drive::Reply;
use geometry::{Address, Geometry, LoadPoint};

// A sense triple with nothing beside it.
fn sense(key: u8, asc: u8, ascq: u8) -> Reply {
    Reply {
        key,
        asc,
        ascq,
        buffered: 0,
        position: Address(0),
        skip: 0,
    }
}

// Good, with so many frames buffered.
pub fn good(buffered: u32) -> Reply {
    Reply {
        buffered,
        ..sense(0, 0, 0)
    }
}

// Busy.
pub fn busy() -> Reply {
    sense(2, 4, 8)
}

// Becoming ready, which counts as busy.
pub fn unready() -> Reply {
    sense(2, 4, 1)
}

// A write error at an address with a skip.
pub fn write_error(at: u32, skip: u8) -> Reply {
    Reply {
        position: Address(at),
        skip,
        ..sense(3, 0x0C, 0)
    }
}

// The tape ended before the frame was written.
pub fn volume_overflow() -> Reply {
    sense(0x0D, 0, 2)
}

// A frame that was read with errors corrected.
pub fn recovered() -> Reply {
    sense(1, 0x17, 1)
}

// Nothing reads at the address.
pub fn unreadable() -> Reply {
    sense(3, 0x11, 0)
}

// Nothing reads at the 32 addresses from the one that is read on.
pub fn end_of_data() -> Reply {
    sense(8, 0, 5)
}

// Nothing reads up to the end of the tape.
pub fn end_of_medium() -> Reply {
    sense(0, 0, 2)
}

// A cartridge that is loaded at the beginning.
pub fn cartridge(segtrk: u16, trks: u16) -> Geometry {
    Geometry {
        segtrk,
        trks,
        load: LoadPoint::Beginning,
    }
}

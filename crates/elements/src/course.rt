// Where frames go.
ghost use Rattle.std.specs.Prelude.{◌≡◌};
ghost use Rattle.elements.specs.Course.{start_of};

use geometry::Address;

// The next frame's address, and what changes it. The target stands beside its flag, since C hands in one without the other (`is_recording`).
#[derive(Clone, Copy)]
pub struct Course {
    // The address of the next frame.
    pub next: Address,
    // One past END, the highest address that a frame may have.
    pub limit: Address,
    // Whether a LOCATE of the target comes first. C hands in every target without one, too.
    pub locate: bool,
    // The first element's address, and after a write error where that sends the frames.
    pub target: Address,
}

impl Course {
    // From this address on, on a cartridge with this LAST.
    pub(crate) fn start(last: Address, address: Address) -> Course
        ensures { result ≡ start_of last address }
    {
        Course {
            next: address,
            limit: Address(last.0.wrapping_add(1)),
            locate: true,
            target: address,
        }
    }
}

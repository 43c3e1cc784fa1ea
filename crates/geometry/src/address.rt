// Where a frame stands and which number it carries are told apart by their types, so that no call can take one for the other.
ghost use Rattle.std.specs.Prelude.{◌≡◌};
ghost use Rattle.geometry.specs.Place.{preceding};

// The address of a frame on the tape, from 0.
#[derive(Clone, Copy, Default, PartialEq, Eq, PartialOrd, Ord)]
pub struct Address(pub u32);

// The highest number of 32 bits, which stands for an address that is higher. No cartridge has so many frames.
pub const HIGHEST_ADDRESS: u32 = 0xFFFFFFFF;

// The frame sequence number of an element, from 0 in a recording.
#[derive(Clone, Copy, PartialEq, Eq, PartialOrd, Ord)]
pub struct Seq(pub u32);

// The address before another. Where that is 0 it stays, which only a session that no call returned asks for.
pub fn preceding(a: Address) -> Address
    ensures { result ≡ preceding a }
{
    Address(a.0.saturating_sub(1))
}

// Reading a header frame: its fields, or the refusal.
ghost use Rattle.std.specs.Prelude.{◌≡◌};
ghost use Rattle.header.specs.Read.{checked_said, read_header};

use crate::valid::{fields, is_valid};
use frame::{FRAME_LENGTH, Header};
use geometry::{Geometry, Refusal};

// The fields of a valid header frame of a cartridge of this geometry.
#[tactic(auto, unfolding(crate::specs::Read::read_header, crate::specs::Read::header_on))]
pub fn read_header(g: Geometry, h: &[u8]) -> Result<Header, Refusal>
    ensures { checked_said result ≡ read_header g h.now }
{
    if h.len() != FRAME_LENGTH {
        return Err(Refusal::Length);
    }
    let last = g.last()?;
    if is_valid(last, h) {
        Ok(fields(h))
    } else {
        Err(Refusal::Header)
    }
}

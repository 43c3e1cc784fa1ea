// What C gives as numbers: geometries, sizes and replies. One that does not fit counts as one that is refused, so each is given a value.
ghost use Rattle.std.specs.Prelude.{◌≡◌};
ghost use Rattle.numbers.specs.Arguments.{without_frames, geometry_of, fitting_of, fitting_depth, sizes_of, as_reply, meaningless};

use drive::{Reply, WRITE_ERROR};
use geometry::{Address, Geometry, LoadPoint};
use recording_state::Sizes;

// SEGTRK, TRKS, and the load point: 0 the beginning, 1 the centre.
#[repr(C)]
#[derive(Clone, Copy)]
pub struct AdrGeometry {
    pub segtrk: u32,
    pub trks: u32,
    pub load: u32,
}

// What the host brings back of a command.
#[repr(C)]
#[derive(Clone, Copy)]
pub struct AdrReply {
    pub buffered: u32,
    pub position: u32,
    pub skip: u32,
    pub key: u8,
    pub asc: u8,
    pub ascq: u8,
}

// A cartridge without frames: refusal 2.
fn without_frames() -> Geometry
    ensures { result ≡ without_frames }
{
    Geometry {
        segtrk: 0,
        trks: 0,
        load: LoadPoint::Beginning,
    }
}

impl From<AdrGeometry> for Geometry {
    ghost from_gives = { λ n g. g ≡ geometry_of n };

    #[tactic(auto, unfolding(crate::specs::Arguments::geometry_of))]
    fn from(n: AdrGeometry) -> Geometry {
        let load = match n.load {
            0 => LoadPoint::Beginning,
            1 => LoadPoint::Centre,
            _ => return without_frames(),
        };
        match (u16::try_from(n.segtrk), u16::try_from(n.trks)) {
            (Ok(segtrk), Ok(trks)) => Geometry { segtrk, trks, load },
            _ => without_frames(),
        }
    }
}

// D, W or T, where it fits; any other counts as 0, for D and W refusal 4.
fn fitting(n: u32) -> u8
    ensures { result ≡ fitting_of n }
{
    u8::try_from(n).unwrap_or(0)
}

// D beside T. A T of 0 is lawful, so one that does not fit is refused by D: that is 0, refusal 4.
fn fitting_depth(depth: u32, tail: u32) -> u8
    ensures { result ≡ fitting_depth depth tail }
{
    if 255 < tail { 0 } else { fitting(depth) }
}

// D, W and T, as an opening takes them. No `From`, since neither the numbers nor `Sizes` are of this crate.
pub fn sizes_of(depth: u32, blocks: u32, tail: u32) -> Sizes
    ensures { result ≡ sizes_of depth blocks tail }
{
    Sizes {
        depth: fitting_depth(depth, tail),
        blocks: fitting(blocks),
        tail: fitting(tail),
    }
}

// A reply with a triple that means nothing: refusal 8.
fn meaningless() -> Reply
    ensures { result ≡ meaningless }
{
    Reply {
        key: 0xFF,
        asc: 0xFF,
        ascq: 0xFF,
        buffered: 0,
        position: Address(0),
        skip: 0,
    }
}

impl From<AdrReply> for Reply {
    ghost from_gives = { λ n r. r ≡ as_reply n };

    #[tactic(auto, unfolding(crate::specs::Arguments::as_reply))]
    fn from(n: AdrReply) -> Reply {
        let reply = Reply {
            key: n.key,
            asc: n.asc,
            ascq: n.ascq,
            buffered: n.buffered,
            position: Address(n.position),
            skip: 0,
        };
        // In any other reply the skip is not looked at.
        if reply.meaning() != WRITE_ERROR {
            return reply;
        }
        match u8::try_from(n.skip) {
            Ok(skip) => Reply { skip, ..reply },
            Err(_) => meaningless(),
        }
    }
}

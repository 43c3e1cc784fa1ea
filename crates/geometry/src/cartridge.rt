// The frames of a cartridge: how many, which hold user data, and where the headers stand.
ghost use Rattle.std.specs.Prelude.{◌≡◌, ◌+◌};
ghost use Rattle.geometry.specs.Place.{place_said};
ghost use Rattle.geometry.specs.Cartridge.{track_frames, frames_of, last_of, is_user, past_reserved, header_address, copy_at};

use crate::address::Address;
use crate::refusal::Refusal;

// Where the cartridge is loaded, which decides how much of a track can be used.
#[derive(Clone, Copy)]
pub enum LoadPoint {
    Beginning,
    Centre,
}

// A cartridge's size as the drive reports it: SEGTRK, the frames of a track, and TRKS, the tracks.
#[derive(Clone, Copy)]
pub struct Geometry {
    pub segtrk: u16,
    pub trks: u16,
    pub load: LoadPoint,
}

// Where the first user frames start.
pub const FIRST_USER: u32 = 10;

// Where the second header group starts, behind the first user frames.
pub const SECOND_GROUP: u32 = 2990;

// Where the second user frames start, behind that group and a defect map.
pub const SECOND_USER: u32 = 3000;

// The frames of each track that a cartridge loaded at its centre can't use.
const CENTRE_FRAMES: u16 = 99;

// The fewest frames that a cartridge must have: up to the first user frame behind the second group.
const LEAST_FRAMES: u32 = 3001;

// The header groups.
pub const HEADER_GROUPS: u8 = 2;

// The copies of each.
pub const GROUP_COPIES: u8 = 5;

// The addresses of the header copies, by group and copy, both from 0.
const HEADERS: [[Address; GROUP_COPIES as usize]; HEADER_GROUPS as usize] = [
    [Address(5), Address(6), Address(7), Address(8), Address(9)],
    [
        Address(2990),
        Address(2991),
        Address(2992),
        Address(2993),
        Address(2994),
    ],
];

impl Geometry {
    // The frames of a track that can be used.
    fn track_frames(self) -> u16
        ensures { result ≡ track_frames self.load self.segtrk }
    {
        match self.load {
            LoadPoint::Beginning => self.segtrk,
            LoadPoint::Centre => self.segtrk.saturating_sub(CENTRE_FRAMES),
        }
    }

    // The frames on tape; 0 where a cartridge loaded at its centre has too short tracks.
    pub fn frames(self) -> u32
        ensures { result ≡ frames_of self }
    {
        (self.track_frames() as u32) * (self.trks as u32)
    }

    // LAST, the highest address; refused with 2 where there are too few frames.
    pub fn last(self) -> Result<Address, Refusal>
        ensures { place_said result ≡ last_of self }
    {
        let n = self.frames();
        if n < LEAST_FRAMES {
            return Err(Refusal::Geometry);
        }
        Ok(Address(n - 1))
    }
}

// Whether an address is a user frame's, on a cartridge with this LAST.
pub fn is_user(last: Address, a: Address) -> bool
    ensures { result ≡ is_user last.0 a.0 }
{
    (FIRST_USER <= a.0 && a.0 < SECOND_GROUP) || (SECOND_USER <= a.0 && a <= last)
}

// The address so many frames further on; where that lies in the second header group or the defect map behind it, the first user frame behind
// both. It may lie past the end of every cartridge, and past 32 bits.
pub fn past_reserved(from: Address, further: u8) -> u64
    ensures { result ≡ past_reserved (from.0 + further) }
{
    let t = (from.0 as u64) + (further as u64);
    if t < (SECOND_GROUP as u64) || (SECOND_USER as u64) <= t {
        t
    } else {
        SECOND_USER as u64
    }
}

// The address of a header copy. Numbers past the last group and past the last copy start from 0 again, so that each has its place.
pub fn header_address(group: u8, copy: u8) -> Address
    ensures { result.0 ≡ header_address group copy }
{
    let g = (group % HEADER_GROUPS) as usize;
    let c = (copy % GROUP_COPIES) as usize;
    HEADERS[g][c]
}

// Which copy of a group stands at an address: the group's addresses are gone through in order. `GROUP_COPIES` where none does,
// as the definition has it: what becomes of that number is promised, too.
pub fn copy_at(group: u8, a: Address) -> u8
    ensures { result ≡ copy_at group a.0 }
{
    for copy in 0..GROUP_COPIES {
        if header_address(group, copy) == a {
            return copy;
        }
    }
    GROUP_COPIES
}

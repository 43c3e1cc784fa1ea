// The sense triples and their meanings.
ghost use Rattle.std.specs.Prelude.{◌≡◌};
ghost use Rattle.drive.specs.Senses.{matches, meaning_of};

use crate::reply::Reply;

// A sense triple with the code of its meaning.
#[derive(Clone, Copy)]
pub struct Sense {
    pub key: u8,
    pub asc: u8,
    pub ascq: u8,
    pub meaning: u8,
}

// The meanings, after table 4-20 of the standard. They are codes, and no enum: SCOPE asks that of the table and of the match on a reply.
// This one is that of every triple that the table does not list.
const OTHER: u8 = 0;

pub const GOOD: u8 = 1;

pub const BUSY: u8 = 2;

// A frame could not be written.
pub const WRITE_ERROR: u8 = 3;

pub const VOLUME_OVERFLOW: u8 = 4;

pub const RECOVERED: u8 = 5;

pub const UNREADABLE: u8 = 6;

pub const END_OF_DATA: u8 = 7;

pub const END_OF_MEDIUM: u8 = 8;

// How many triples are listed.
const TRIPLES: usize = 9;

// In the order of 01, "Replies".
const SENSES: [Sense; TRIPLES] = [
    Sense {
        key: 0x00,
        asc: 0x00,
        ascq: 0x00,
        meaning: GOOD,
    },
    Sense {
        key: 0x02,
        asc: 0x04,
        ascq: 0x01,
        meaning: BUSY,
    },
    Sense {
        key: 0x02,
        asc: 0x04,
        ascq: 0x08,
        meaning: BUSY,
    },
    Sense {
        key: 0x03,
        asc: 0x0C,
        ascq: 0x00,
        meaning: WRITE_ERROR,
    },
    Sense {
        key: 0x0D,
        asc: 0x00,
        ascq: 0x02,
        meaning: VOLUME_OVERFLOW,
    },
    Sense {
        key: 0x01,
        asc: 0x17,
        ascq: 0x01,
        meaning: RECOVERED,
    },
    Sense {
        key: 0x03,
        asc: 0x11,
        ascq: 0x00,
        meaning: UNREADABLE,
    },
    Sense {
        key: 0x08,
        asc: 0x00,
        ascq: 0x05,
        meaning: END_OF_DATA,
    },
    Sense {
        key: 0x00,
        asc: 0x00,
        ascq: 0x02,
        meaning: END_OF_MEDIUM,
    },
];

impl Reply {
    // Whether its triple is that of an entry of the table.
    fn has(self, s: Sense) -> bool
        ensures { result ≡ matches s self.key self.asc self.ascq }
    {
        s.key == self.key && s.asc == self.asc && s.ascq == self.ascq
    }

    // The meaning of its triple: that of the first entry of the table which has it, or `OTHER`. In line: of a reply from C it is asked
    // twice, for the skip and for the match, and then looked up once.
    #[tactic(auto, unfolding(crate::specs::Senses::meaning_in), using(crate::proofs::SenseLaws::meaning_step))]
    #[inline(always)]
    pub fn meaning(self) -> u8
        ensures { result ≡ meaning_of self.key self.asc self.ascq }
    {
        for sense in SENSES {
            if self.has(sense) {
                return sense.meaning;
            }
        }
        OTHER
    }
}

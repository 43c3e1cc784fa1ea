// Bytes and big-endian numbers read from lent buffers. Every call has an answer for every slice.
#![tactic(auto)]

ghost use Rattle.std.specs.Prelude.{◌≡◌, ℕ, ◌+◌, ◌<◌, length, take, get_or};
ghost use Rattle.buffer.specs.Bytes.{get16, get32, agree};

// The byte at an index, and 0 past the end.
pub fn byte_at(s: &[u8], i: usize) -> u8
    ensures { result ≡ get_or s.now i 0 }
{
    s.get(i).copied().unwrap_or(0)
}

// The bytes from an index on, those past the end as 0.
fn bytes_at<const N: usize>(s: &[u8], at: u16) -> [u8; N]
    ensures value { (i : ℕ) → i < N → get_or result i 0 ≡ get_or s.now (at + i) 0 }
    ensures len { length result ≡ N }
{
    let mut bytes = [0; N];
    for i in 0..N {
        bytes[i] = byte_at(s, (at as usize) + i);
    }
    bytes
}

// The number of 16 bits at an index; bytes past the end count as 0.
pub fn be16_at(s: &[u8], at: u16) -> u16
    ensures { result ≡ get16 s.now at }
{
    u16::from_be_bytes(bytes_at(s, at))
}

// The number of 32 bits at an index; bytes past the end count as 0.
pub fn be32_at(s: &[u8], at: u16) -> u32
    ensures { result ≡ get32 s.now at }
{
    u32::from_be_bytes(bytes_at(s, at))
}

// Whether a slice begins with these bytes.
#[tactic(auto, using(crate::proofs::Agreement::agree_turned))]
pub fn starts_with(s: &[u8], front: &[u8]) -> bool
    ensures { result ≡ agree (take (length front.now) s.now) front.now }
{
    s.starts_with(front)
}

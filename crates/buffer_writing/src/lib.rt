// Bytes and big-endian numbers written to lent buffers. Every public call serves every slice.
#![tactic(auto)]

ghost use Rattle.std.specs.Prelude.{◌≡◌, eqb, length, replicate};
ghost use Rattle.geometry.specs.Pick.{pick};
ghost use Rattle.buffer.specs.Bytes.{put16, put32};
ghost use Rattle.buffer_writing.specs.Stored.{stored_upto};

// Stores bytes from an index on; places past the end are left alone.
fn put_bytes<const N: usize>(s: &mut [u8], at: u16, bytes: [u8; N])
    ensures { s.new ≡ stored_upto N s.old at bytes.entry }
{
    for i in 0..N {
        let place = (at as usize) + i;
        if place < s.len() {
            s[place] = bytes[i];
        }
    }
}

// Stores a number of 16 bits; bytes past the end are left alone.
pub fn put_be16(s: &mut [u8], at: u16, v: u16)
    ensures { s.new ≡ put16 s.old at v }
{
    put_bytes::<2>(s, at, v.to_be_bytes());
}

// Stores a number of 32 bits; bytes past the end are left alone.
pub fn put_be32(s: &mut [u8], at: u16, v: u32)
    ensures { s.new ≡ put32 s.old at v }
{
    put_bytes::<4>(s, at, v.to_be_bytes());
}

// Fills s with zeros.
pub fn clear(s: &mut [u8])
    ensures { s.new ≡ replicate (length s.old) 0 }
{
    s.fill(0);
}

// Copies all of src over dst; slices of unlike lengths are left alone. The compiler makes a memmove of the copy, behind a test that dst does not begin
// within src.
pub fn copy_all(dst: &mut [u8], src: &[u8])
    ensures { dst.new ≡ pick (eqb (length src.now) (length dst.old)) src.now dst.old }
{
    if src.len() == dst.len() {
        dst.copy_from_slice(src);
    }
}

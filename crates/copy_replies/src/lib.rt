// What a reply to a command for the header copies changes, one function for each reply.
#![tactic(auto)]

ghost use Rattle.std.specs.Prelude.{◌≡◌, ◌<◌, ◌≤◌};
ghost use Rattle.copies.specs.Copies.{progress_said, located_of, taken_of, confirmed_of, failed_at, next_group, onward_of, counted_of, failed_copy, failed_of};

use copies::Copies;
use geometry::{Address, GROUP_COPIES, Refusal, copy_at};

// A LOCATE answered good.
pub fn located(c: Copies) -> Copies
    ensures { result ≡ located_of c }
{
    Copies { locate: false, ..c }
}

// A WRITE answered good: the drive has taken a copy.
pub fn taken(c: Copies) -> Copies
    ensures { result ≡ taken_of c }
{
    Copies {
        copy: c.copy.wrapping_add(1),
        outstanding: c.outstanding.wrapping_add(1),
        ..c
    }
}

// The oldest n copies are on tape.
fn confirmed(c: Copies, n: u8) -> Copies
    requires { n ≤ c.outstanding }
    ensures { result ≡ confirmed_of c n }
{
    Copies {
        outstanding: c.outstanding - n,
        confirmed: c.confirmed.wrapping_add(n),
        ..c
    }
}

// The next group starts with a LOCATE of its first copy.
fn next_group(c: Copies) -> Copies
    ensures { result ≡ next_group c }
{
    Copies {
        group: 1,
        copy: 0,
        locate: true,
        ..c
    }
}

// A group whose copies are all through gives way to the next.
#[tactic(auto, unfolding(copies::specs::Copies::onward_of))]
fn onward(c: Copies) -> Result<Option<Copies>, Refusal>
    ensures { progress_said result ≡ onward_of c }
{
    if c.copy < GROUP_COPIES || 0 < c.outstanding {
        return Ok(Some(c));
    }
    if c.group == 0 {
        return Ok(Some(next_group(c)));
    }
    if c.confirmed == 0 {
        return Err(Refusal::NotFound);
    }
    Ok(None)
}

// READ POSITION answered good, with so many frames still buffered.
#[tactic(auto, unfolding(copies::specs::Copies::counted_of))]
pub fn counted(c: Copies, buffered: u32) -> Result<Option<Copies>, Refusal>
    ensures { progress_said result ≡ counted_of c buffered }
{
    if (c.outstanding as u32) < buffered {
        return Err(Refusal::Reply);
    }
    let n = c.outstanding - (buffered as u8);
    onward(confirmed(c, n))
}

// The copy of index i failed and n before it are on tape: writing goes on behind it.
fn failed_at(c: Copies, n: u8, i: u8) -> Copies
    requires { i < 255 }
    ensures { result ≡ failed_at c n i }
{
    Copies {
        copy: i + 1,
        outstanding: 0,
        confirmed: c.confirmed.wrapping_add(n),
        locate: true,
        ..c
    }
}

// A write error of copy i, which must be outstanding.
#[tactic(auto, unfolding(copies::specs::Copies::failed_copy))]
fn failed_copy(c: Copies, i: u8) -> Result<Option<Copies>, Refusal>
    ensures { progress_said result ≡ failed_copy c i }
{
    let oldest = c.copy.saturating_sub(c.outstanding);
    if i < oldest || c.copy <= i {
        return Err(Refusal::Reply);
    }
    onward(failed_at(c, i - oldest, i))
}

// A write error at p, which must be the address of an outstanding copy.
pub fn failed(c: Copies, p: Address) -> Result<Option<Copies>, Refusal>
    ensures { progress_said result ≡ failed_of c p }
{
    failed_copy(c, copy_at(c.group, p))
}

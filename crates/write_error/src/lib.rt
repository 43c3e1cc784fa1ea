// The target of a write error: where writing goes on.
#![tactic(auto)]

ghost use Rattle.std.specs.Prelude.{◌≡◌};
ghost use Rattle.geometry.specs.Place.{place_said};
ghost use Rattle.write_error.specs.WriteError.{step_of, target_address, target_within, target_of};

use geometry::{Address, HIGHEST_ADDRESS, Refusal, past_reserved};

// The addresses that an error skips: at least one.
fn step(skip: u8) -> u8
    ensures { result ≡ step_of skip }
{
    skip.max(1)
}

// The target of a write error at p, whether there is room or not.
fn target_number(p: Address, skip: u8) -> u64
    ensures { result ≡ target_address p skip }
{
    past_reserved(p, step(skip))
}

// The same as an address: where 32 bits don't hold it, the highest that they do.
pub fn target_address(p: Address, skip: u8) -> Address
    ensures { result ≡ target_within p skip }
{
    Address(target_number(p, skip).min(HIGHEST_ADDRESS as u64) as u32)
}

// The target of a write error at p, if it is below the limit.
pub fn target(p: Address, skip: u8, limit: Address) -> Result<Address, Refusal>
    ensures { place_said result ≡ target_of p skip limit }
{
    let t = target_number(p, skip);
    if t < (limit.0 as u64) {
        Ok(Address(t as u32))
    } else {
        Err(Refusal::TapeFull)
    }
}

// Which header the copies carry.
#![tactic(auto)]

ghost use Rattle.std.specs.Prelude.{◌≡◌};
ghost use Rattle.geometry.specs.Place.{as_address};
ghost use Rattle.carried_headers.specs.Carried.{opening_header, is_counted_out, is_exhausted, renewed, added_to, closing_of};

use frame::{HIGHEST_PASS, Header};
use geometry::{Address, preceding};

// An opening header: it names no EOD, and the old end where there is one.
fn opening_header(last: Address, pass: u16, update: u32, old: Address) -> Header
    ensures { result ≡ record { last = last; pass = pass; eod = as_address 0; old = old; update = update } }
{
    Header {
        last,
        pass,
        eod: Address(0),
        old,
        update,
    }
}

// The opening header on a cartridge that holds no valid one.
pub fn blank_header(last: Address) -> Header
    ensures { result ≡ opening_header last 1 0 }
{
    opening_header(last, 1, 0, Address(0))
}

// The highest update count that can be raised twice, for the opening and for the closing headers.
const HIGHEST_UPDATE: u32 = 4294967293;

// Whether the update count can't be raised twice.
pub fn is_counted_out(update: u32) -> bool
    ensures { result ≡ is_counted_out update }
{
    HIGHEST_UPDATE < update
}

// Whether pass or update count can't be raised.
pub fn is_exhausted(old: Header) -> bool
    ensures { result ≡ is_exhausted old }
{
    HIGHEST_PASS <= old.pass || is_counted_out(old.update)
}

// The opening header of a recording over an old one.
pub fn renew(old: Header) -> Header
    ensures { result ≡ renewed old }
{
    opening_header(
        old.last,
        old.pass.wrapping_add(1),
        old.update.wrapping_add(1),
        Address(0),
    )
}

// The opening header of a recording that adds to a cartridge whose newest header has this LAST, pass and update count, and whose EOD is at `end`.
pub fn add_to(last: Address, pass: u16, update: u32, end: Address) -> Header
    ensures { result ≡ added_to last pass update end }
{
    opening_header(last, pass, update.wrapping_add(1), end)
}

// The closing header: EOD stands before the next address.
pub fn closing_header(header: Header, next: Address) -> Header
    ensures { result ≡ closing_of header next }
{
    Header {
        eod: preceding(next),
        old: Address(0),
        update: header.update.wrapping_add(1),
        ..header
    }
}

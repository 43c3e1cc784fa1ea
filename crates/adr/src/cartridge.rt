// The cartridge's addresses, and the choice of the newer header.
ghost use Rattle.std.specs.Prelude.{◌≡◌};
ghost use Rattle.geometry.specs.Cartridge.{frames_of, last_of, is_user, header_address};
ghost use Rattle.header_choice.specs.Choice.{choice_of};
ghost use Rattle.exchange_twins.specs.Numbers.{flag_number};
ghost use Rattle.numbers.specs.Arguments.{geometry_of};
ghost use Rattle.numbers.specs.Places.{place_twin, choice_twin};

use geometry::{Address, GROUP_COPIES, Geometry, HEADER_GROUPS, header_address, is_user};
use header_choice::decide;
use numbers::{AdrChoice, AdrGeometry, AdrPlace};

// The frames on tape.
#[unsafe(no_mangle)]
pub extern "C" fn adr_frames(g: AdrGeometry) -> u32
    ensures { result ≡ frames_of (geometry_of g) }
{
    Geometry::from(g).frames()
}

// LAST, the highest address.
#[unsafe(no_mangle)]
pub extern "C" fn adr_last(g: AdrGeometry) -> AdrPlace
    ensures { result ≡ place_twin (last_of (geometry_of g)) }
{
    Geometry::from(g).last().into()
}

// 1 where an address is a user frame's, on a cartridge with this LAST; else 0.
#[unsafe(no_mangle)]
pub extern "C" fn adr_is_user(last: u32, address: u32) -> u8
    ensures { result ≡ flag_number (is_user last address) }
{
    is_user(Address(last), Address(address)).into()
}

// The address of a header copy, 0 to 4, of a group, 0 or 1. Copies count modulo 5 and groups modulo 2.
#[unsafe(no_mangle)]
pub extern "C" fn adr_header_address(group: u32, copy: u32) -> u32
    ensures { result ≡ header_address group copy }
{
    header_address(
        (group % (HEADER_GROUPS as u32)) as u8,
        (copy % (GROUP_COPIES as u32)) as u8,
    )
    .0
}

// The newer of two header frames.
#[unsafe(no_mangle)]
pub extern "C" fn adr_choose(g: AdrGeometry, first: &[u8], second: &[u8]) -> AdrChoice
    ensures { result ≡ choice_twin (choice_of (geometry_of g) first.now second.now) }
{
    decide(g.into(), first, second).into()
}

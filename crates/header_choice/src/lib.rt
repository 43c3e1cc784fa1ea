// The choice of the newer of two header frames.
#![tactic(auto)]

ghost use Rattle.std.specs.Prelude.{◌≡◌, length, Ok};
ghost use Rattle.frame.specs.Lengths.{frame_length};
ghost use Rattle.geometry.specs.Refusal.{refusal_number, verdict_number};
ghost use Rattle.header_choice.specs.Choice.{choice_said, newer_of, gives_way, lower_of, choice_of, choice_number, Returned};

use frame::{DATA_LENGTH, Header};
use geometry::{Geometry, Refusal};
use header::read_header;
use std::cmp::Ordering;

// Which of two headers is chosen.
#[derive(Clone, Copy, PartialEq, Eq)]
pub enum Choice {
    First,
    Second,
}

// Of two valid headers, with what was read of each.
#[tactic(auto, unfolding(crate::specs::Choice::newer_of))]
fn newer(one: Header, other: Header, first: &[u8], second: &[u8]) -> Result<Choice, Refusal>
    requires first_len { length first.now ≡ frame_length }
    requires second_len { length second.now ≡ frame_length }
    ensures { choice_said result ≡ newer_of one other first.now second.now }
{
    let (data, _) = first.split_at(DATA_LENGTH);
    let (other_data, _) = second.split_at(DATA_LENGTH);
    match one.update.cmp(&other.update) {
        Ordering::Greater => Ok(Choice::First),
        Ordering::Less => Ok(Choice::Second),
        Ordering::Equal if data == other_data => Ok(Choice::First),
        Ordering::Equal => Err(Refusal::Header),
    }
}

// What is chosen where the other header is valid and this one was refused: an invalid one does not matter, any other refusal does.
fn give_way(refusal: Refusal, other: Choice) -> Result<Choice, Refusal>
    ensures { choice_said result ≡ gives_way (refusal_number refusal) (choice_said (Ok other)) }
{
    if refusal == Refusal::Header {
        Ok(other)
    } else {
        Err(refusal)
    }
}

// Of two headers that are refused, the refusal that comes first: by the numbers, as its definition has it, and not by an order of the enum.
fn lower(first: Refusal, second: Refusal) -> Refusal
    ensures { refusal_number result ≡ lower_of (refusal_number first) (refusal_number second) }
{
    if second.number() < first.number() {
        second
    } else {
        first
    }
}

// Which of two header frames is the newer.
#[tactic(auto, unfolding(crate::specs::Choice::choice_of))]
pub fn decide(g: Geometry, first: &[u8], second: &[u8]) -> Result<Choice, Refusal>
    ensures { choice_said result ≡ choice_of g first.now second.now }
{
    match (read_header(g, first), read_header(g, second)) {
        (Ok(h), Ok(k)) => newer(h, k, first, second),
        (Ok(_), Err(r)) => give_way(r, Choice::First),
        (Err(r), Ok(_)) => give_way(r, Choice::Second),
        (Err(r), Err(q)) => Err(lower(r, q)),
    }
}

// Hands back the newer of two lent header frames, or an empty part of the first where neither is chosen.
pub fn choose<'a>(g: Geometry, first: &'a [u8], second: &'a [u8]) -> &'a [u8]
    ensures { Returned (choice_of g first.now second.now) first.entry second.entry result }
{
    match decide(g, first, second) {
        Ok(Choice::First) => first,
        Ok(Choice::Second) => second,
        Err(_) => &first[..0],
    }
}

// Whether the choice is refused, and with which number.
pub fn choice_verdict(g: Geometry, first: &[u8], second: &[u8]) -> Result<(), Refusal>
    ensures { verdict_number result ≡ choice_number (choice_of g first.now second.now) }
{
    decide(g, first, second)?;
    Ok(())
}

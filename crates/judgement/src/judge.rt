// A frame that was read is passed over, refused, or the next element or the end.
ghost use Rattle.std.specs.Prelude.{◌≡◌, length};
ghost use Rattle.frame.specs.Lengths.{aux_length};
ghost use Rattle.judgement.specs.Judgement.{judgement_said, expected_element, ends_from, is_earlier_end, is_named_end, is_one_below};
ghost use Rattle.judgement.specs.Judgement.{judge_table, judge_number, judge_aux, judge_frame};

use crate::table::as_table;
use buffer::{be16_at, be32_at, byte_at};
use frame::{DATA_LENGTH, Element, FRAME_LENGTH, Header, Kind};
use geometry::{Address, Refusal, Seq};
use std::cmp::Ordering;

// The element that is expected, of a kind.
fn expected_element(kind: Kind, told: Header, expected: Seq) -> Element
    ensures { result ≡ expected_element kind told expected }
{
    Element {
        kind,
        pass: told.pass,
        last: told.last,
        seq: expected,
        filemarks: 0,
        marker: Address(0),
    }
}

// The address from which an EOD ends reading.
#[tactic(auto, unfolding(crate::specs::Judgement::ends_from))]
fn ends_from(told: Header) -> Address
    ensures { result.0 ≡ ends_from told }
{
    if told.eod == Address(0) {
        told.old
    } else {
        told.eod
    }
}

// Whether an EOD of the expected number, at this address, is an earlier end.
fn is_earlier_end(kind: Kind, told: Header, at: Address) -> bool
    ensures { result ≡ is_earlier_end kind told at }
{
    matches!(kind, Kind::Eod) && at < ends_from(told)
}

// Whether it is an EOD where the header says that EOD is.
fn is_named_end(kind: Kind, told: Header, at: Address) -> bool
    ensures { result ≡ is_named_end kind told at }
{
    matches!(kind, Kind::Eod) && told.eod != Address(0) && at == told.eod
}

// Whether it is one numbered one below the expected.
fn is_one_below(kind: Kind, told: Header, at: Address, number: Seq, expected: Seq) -> bool
    ensures { result ≡ is_one_below kind told at number.0 expected }
{
    is_named_end(kind, told, at) && (number.0 as u64) + 1 == (expected.0 as u64)
}

// A frame of a kind, if its other fields are as the table has them for this number.
fn judge_table(kind: Kind, told: Header, number: Seq, aux: &[u8]) -> Result<Option<Kind>, Refusal>
    requires { length aux.now ≡ aux_length }
    ensures { judgement_said result ≡ judge_table kind told number aux.now }
{
    if as_table(expected_element(kind, told, number), aux) {
        Ok(Some(kind))
    } else {
        Err(Refusal::Foreign)
    }
}

// A frame of this pass and of a kind, by its number.
#[tactic(auto, unfolding(crate::specs::Judgement::judge_number))]
fn judge_number(
    kind: Kind,
    told: Header,
    at: Address,
    expected: Seq,
    aux: &[u8],
) -> Result<Option<Kind>, Refusal>
    requires { length aux.now ≡ aux_length }
    ensures { judgement_said result ≡ judge_number kind told at expected aux.now }
{
    let number = Seq(be32_at(aux, 44));
    if is_one_below(kind, told, at, number, expected) {
        return judge_table(kind, told, number, aux);
    }
    match number.cmp(&expected) {
        Ordering::Less => Ok(None),
        Ordering::Greater => Err(Refusal::Missing),
        Ordering::Equal if is_earlier_end(kind, told, at) => Ok(None),
        Ordering::Equal => judge_table(kind, told, expected, aux),
    }
}

// A frame of the right length: one that is no element of this pass is passed over.
#[tactic(auto, using(crate::proofs::Cases::judged))]
fn judge_aux(told: Header, at: Address, expected: Seq, aux: &[u8]) -> Result<Option<Kind>, Refusal>
    requires { length aux.now ≡ aux_length }
    ensures { judgement_said result ≡ judge_aux told at expected aux.now }
{
    if be32_at(aux, 0) != 0 {
        return Ok(None);
    }
    match Kind::try_from(be16_at(aux, 16)) {
        Ok(kind) if byte_at(aux, 20) == 0 && be16_at(aux, 22) == told.pass => {
            judge_number(kind, told, at, expected, aux)
        }
        _ => Ok(None),
    }
}

// What a frame at an address is to a reading that expects a sequence number.
#[tactic(auto, unfolding(crate::specs::Judgement::judge_frame))]
pub fn judge_frame(
    told: Header,
    at: Address,
    expected: Seq,
    frame: &[u8],
) -> Result<Option<Kind>, Refusal>
    ensures { judgement_said result ≡ judge_frame told at expected frame.now }
{
    if frame.len() != FRAME_LENGTH {
        return Err(Refusal::Length);
    }
    let (_, aux) = frame.split_at(DATA_LENGTH);
    judge_aux(told, at, expected, aux)
}

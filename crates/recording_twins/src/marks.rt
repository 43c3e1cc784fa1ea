// The marks of a window as flags. The compiler makes loops over an index of many marks at once, but of `all` and `map` one mark at a time, which
// makes every call of a session several times as long.
ghost use Rattle.std.specs.Prelude.{◌≡◌, map};
ghost use Rattle.exchange_twins.specs.Numbers.{flag_of, flag_number};
ghost use Rattle.recording_twins.specs.Marks.{all_flags};

use elements::MARKS;

// Whether each number is 0 or 1. All are looked at, as that is faster than to stop at the first that is not.
pub(crate) fn are_flags(n: [u8; MARKS]) -> bool
    ensures { result ≡ all_flags n }
{
    let mut ok = true;
    for i in 0..MARKS {
        ok = ok & (n[i] <= 1);
    }
    ok
}

// The marks that have these numbers.
pub(crate) fn flags_of(n: [u8; MARKS]) -> [bool; MARKS]
    ensures { result ≡ map flag_of n }
{
    let mut marks = [false; MARKS];
    for i in 0..MARKS {
        marks[i] = n[i] == 1;
    }
    marks
}

// Their numbers.
pub(crate) fn flag_numbers(marks: [bool; MARKS]) -> [u8; MARKS]
    ensures { result ≡ map flag_number marks }
{
    let mut n = [0; MARKS];
    for i in 0..MARKS {
        n[i] = u8::from(marks[i]);
    }
    n
}

// What the calls of a sheet return, as numbers.
ghost use Rattle.std.specs.Prelude.{◌≡◌};
ghost use Rattle.sheet.specs.Answer.{answer_said};
ghost use Rattle.sheet_twins.specs.Sheet.{sheet_twin};
ghost use Rattle.sheet_twins.specs.Answers.{unknown, entered_twin};

use crate::sheet_numbers::AdrSheet;
use geometry::{Outcome, Refusal};
use numbers::{LINE, NOTHING, REFUSED};
use sheet::{Answer, Sheet};

// What a call answers: the lent line, nothing, or refused with a number.
#[repr(C)]
#[derive(Clone, Copy)]
pub struct AdrSheetEntered {
    pub sheet: AdrSheet,
    pub answer: u8,
    pub number: u8,
}

impl From<Outcome<Sheet, Answer>> for AdrSheetEntered {
    ghost from_gives = { λ e n. n ≡ entered_twin (answer_said e.1) (sheet_twin e.0) };

    fn from(e: Outcome<Sheet, Answer>) -> AdrSheetEntered {
        let (sheet, answered) = e;
        let (answer, number) = match answered {
            Ok(Answer::Nothing) => (NOTHING, 0),
            Ok(Answer::Line) => (LINE, 0),
            Err(r) => (REFUSED, r.number()),
        };
        AdrSheetEntered {
            sheet: sheet.into(),
            answer,
            number,
        }
    }
}

impl AdrSheetEntered {
    // Numbers that are no sheet's.
    pub fn unknown(s: AdrSheet) -> AdrSheetEntered
        ensures { result ≡ unknown s }
    {
        AdrSheetEntered {
            sheet: s,
            answer: REFUSED,
            number: Refusal::Phase.number(),
        }
    }
}

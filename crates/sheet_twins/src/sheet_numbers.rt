// A shelf sheet as numbers.
ghost use Rattle.std.specs.Prelude.{◌≡◌};
ghost use Rattle.exchange_twins.specs.ComesBack.{ComesBack};
ghost use Rattle.sheet_twins.specs.Sheet.{is_sheet, sheet_of, sheet_twin, checked_sheet};

use geometry::Refusal;
use sheet::Sheet;

// A sheet's numbers. A host keeps them between calls and looks into none.
#[repr(C)]
#[derive(Clone, Copy)]
pub struct AdrSheet {
    pub first: u64,
    pub next: u64,
    pub job: u32,
    pub ended: u8,
}

impl AdrSheet {
    // Whether the numbers are a sheet's.
    pub fn is_sheet(self) -> bool
        ensures { result ≡ is_sheet self }
    {
        self.ended <= 1
    }

    // The sheet that the numbers stand for, where they are one's. The contract also says that no sheet is lost on the way to its numbers and back.
    #[tactic(auto, using(crate::proofs::Inverse::sheet_comes_back))]
    pub fn sheet(self) -> Sheet
        ensures { (result ≡ sheet_of self) × ComesBack is_sheet sheet_of sheet_twin }
    {
        Sheet {
            job: self.job,
            first: self.first,
            next: self.next,
            ended: self.ended == 1,
        }
    }
}

impl From<Sheet> for AdrSheet {
    ghost from_gives = { λ s n. n ≡ sheet_twin s };

    fn from(s: Sheet) -> AdrSheet {
        AdrSheet {
            first: s.first,
            next: s.next,
            job: s.job,
            ended: s.ended.into(),
        }
    }
}

// Numbers that are no sheet's are refused with 7.
impl TryFrom<AdrSheet> for Sheet {
    type Error = Refusal;

    ghost try_from_gives = { λ n r. r ≡ checked_sheet n };

    fn try_from(n: AdrSheet) -> Result<Sheet, Refusal> {
        if !n.is_sheet() {
            return Err(Refusal::Phase);
        }
        Ok(n.sheet())
    }
}

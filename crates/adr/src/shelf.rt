// The calls of a shelf sheet. Numbers that are no sheet's come back as they are, refused with 7.
ghost use Rattle.std.specs.Prelude.{◌≡◌};
ghost use Rattle.sheet.specs.Calls.{open_of, enter_of, finish_of};
ghost use Rattle.adr.specs.Sheet.{entered, lent_twin, through};

use sheet::Sheet;
use sheet_twins::{AdrSheet, AdrSheetEntered};

// A new sheet, and its header line.
#[unsafe(no_mangle)]
pub extern "C" fn adr_sheet_open(line: &mut [u8]) -> AdrSheetEntered
    ensures { entered result line.new ≡ lent_twin (open_of line.old) }
{
    Sheet::open(line).into()
}

// The AUX field of the next delivery, or of EOD.
#[unsafe(no_mangle)]
#[tactic(auto, unfolding(crate::specs::Sheet::through))]
pub extern "C" fn adr_sheet_enter(s: AdrSheet, aux: &[u8], line: &mut [u8]) -> AdrSheetEntered
    ensures { entered result line.new ≡ through (λ t. enter_of t aux.now) s line.old }
{
    let Ok(sheet) = Sheet::try_from(s) else {
        return AdrSheetEntered::unknown(s);
    };
    sheet.enter(aux, line).into()
}

// No further field comes.
#[unsafe(no_mangle)]
#[tactic(auto, unfolding(crate::specs::Sheet::through))]
pub extern "C" fn adr_sheet_finish(s: AdrSheet, line: &mut [u8]) -> AdrSheetEntered
    ensures { entered result line.new ≡ through finish_of s line.old }
{
    let Ok(sheet) = Sheet::try_from(s) else {
        return AdrSheetEntered::unknown(s);
    };
    sheet.finish(line).into()
}

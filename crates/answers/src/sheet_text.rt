// A whole sheet, from its bytes to its text.
ghost use Rattle.std.specs.Prelude.{◌≡◌, IfOk, Some, string_bytes};
ghost use Rattle.sheets.specs.Grammar.{Said};
ghost use Rattle.sheets.specs.Viewed.{viewed};
ghost use Rattle.answers.specs.Printed.{Answers, bare_text, column_text, decline_line};

use crate::letter::Letter;
use crate::refusal::Refusal;
use crate::run::run;
use directories::FrozenIndex;
use indexes::{Decline, Layout};
use keys::{Account, Label};
use layers::StrikeList;
use sheets::{Column, Part, Sheet, SheetKey};
use std::alloc::{AllocError, Global};

// The one line of a sheet or a column that is declined.
#[tactic(auto, using(crate::proofs::Lines::spaced_last))]
fn declined(heap: Global, letter: Letter, why: Decline) -> Result<String, AllocError>
    ensures { IfOk result (λ t. string_bytes t ≡ decline_line letter why) }
{
    let number = why.number();
    format!(in heap; "{letter} {number}\n")
}

// The text over a bare column of this kind of key.
fn over<K: SheetKey>(
    heap: Global,
    sheet: &Sheet<'_>,
    letter: Letter,
    column: Part<'_>,
) -> Result<String, AllocError>
    ensures { (s : Said) → viewed sheet.now ≡ Some s → IfOk result (λ t. string_bytes t ≡ column_text K.Key.before K.SheetKey.width K.SheetKey.spelled letter column.entry.bytes.now s.calls) }
{
    let rows = column.keys::<K>(heap)?;
    let requests = sheet.requests::<K>(heap)?;
    let mut index = FrozenIndex::empty();
    if let Err(why) = index.open(rows.as_slice(), Layout::Bare, &[]) {
        return declined(heap, letter, why);
    }
    run(heap, &mut StrikeList::new(index), requests.as_slice())
}

// The text of a sheet whose column stays bare.
fn bare(heap: Global, sheet: &Sheet<'_>) -> Result<String, AllocError>
    ensures { (s : Said) → viewed sheet.now ≡ Some s → IfOk result (λ t. string_bytes t ≡ bare_text s) }
{
    match sheet.column {
        Column::Accounts(part) => over::<Account>(heap, sheet, Letter::Accounts, part),
        Column::Labels(part) => over::<Label>(heap, sheet, Letter::Labels, part),
    }
}

// The text that is printed for a sheet's bytes.
pub fn answer(heap: Global, bytes: &[u8]) -> Result<String, Refusal>
    ensures { Answers bytes.now result }
{
    let Some(sheet) = Sheet::read(bytes) else {
        return Ok(declined(heap, Letter::Malformed, Decline::MalformedSheet)?);
    };
    match sheet.layout() {
        Layout::Bare => Ok(bare(heap, &sheet)?),
        Layout::Full { .. } | Layout::Level { .. } => Err(Refusal::NoDirectory),
    }
}

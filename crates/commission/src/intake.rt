// A sheet from a line of text.
ghost use Rattle.commission.specs.Lines.{Taken};

use crate::refusal::Refusal;
use record::fields::SheetFields;
use record::sheet::Sheet;
use text::numerals::seven;

// The sheet whose seven numbers the line writes.
pub fn sheet_of(line: &[u8]) -> Result<Sheet, Refusal>
    ensures { Taken line.now result }
{
    let numbers = seven(line).ok_or(Refusal::Line)?;
    let sheet = Sheet::new(SheetFields::from(numbers))?;
    Ok(sheet)
}

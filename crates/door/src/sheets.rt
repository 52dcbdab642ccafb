// The door of job sheets.
ghost use Rattle.answering.specs.Sheets.{SheetText};

use answering::TEXT;

// Writes the whole answer to a job sheet to the front of `text` and gives its length.
pub fn zg_sheet(sheet: &[u8], text: &mut [u8; TEXT]) -> usize
    ensures { SheetText sheet.now text.old result text.new }
{
    answering::answer_sheet(sheet, text)
}

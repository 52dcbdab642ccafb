// A job sheet answered.
ghost use Rattle.std.specs.Prelude.{◌≡◌, ◌+◌, ◌≤◌, length};
ghost use Rattle.checks.specs.Answers.{number_of};
ghost use Rattle.checks.specs.Told.{told_check};
ghost use Rattle.fields.specs.Tags.{length_of};
ghost use Rattle.asking.specs.Calls.{call_of};
ghost use Rattle.answering.specs.Sheets.{SheetText};
ghost use Rattle.answering.specs.Steps.{Standing, FieldPut, LinesPut};

use asking::field_checked;
use checks::{Reason, Refusal};
use fields::{Tag, body_and_behind, head_of};
use lines::put_line;
use plate::Plate;

// The longest sheet that is read, in bytes.
pub const LONGEST: usize = 65_536;

// Room for every answer: a sheet has at most 21,846 fields, whole ones of three bytes and a cut one, and a line at most eight bytes.
pub const TEXT: usize = 174_768;

// The plate after a field, and the place after its line.
#[derive(Clone, Copy)]
pub struct Applied {
    pub plate: Plate,
    pub end: usize,
}

// The number of what a call told, 0 where it is served.
fn number_of(told: Result<(), Refusal>) -> u32
    ensures { result ≡ number_of (told_check told) }
{
    match told {
        Ok(()) => 0,
        Err(why) => why.reason.number(),
    }
}

// Puts a field to the plate and writes its line.
fn apply_field(plate: Plate, tag: Tag, body: &[u8], out: &mut [u8], end: usize) -> Applied
    requires { Standing plate × (length body.now ≡ length_of tag) × (end + 8 ≤ length out.old) }
    ensures { FieldPut plate (call_of tag body.now) out.old end result out.new }
{
    let answer = asking::apply(plate, tag, body);
    let end = put_line(out, end, number_of(answer.told), answer.plate.count);
    Applied {
        plate: answer.plate,
        end,
    }
}

// The lines of a sheet that is not too long. Whether a field is refused is asked of the plate's slots, and the plate is passed only where it
// changes: passing it takes longer than most refusals.
fn write_lines(sheet: &[u8], out: &mut [u8]) -> usize
    requires { (length sheet.now ≤ 65536) × (174768 ≤ length out.old) }
    ensures { LinesPut sheet.now out.old result out.new }
{
    let mut plate = plate::empty();
    let mut end: usize = 0;
    let mut rest = sheet;
    loop {
        let field = match head_of(rest) {
            Ok(Some(field)) => field,
            Ok(None) => return end,
            Err(why) => return put_line(out, end, why.number(), plate.count),
        };
        let (body, behind) = body_and_behind(rest, field.size);
        match field_checked(&plate.slots, plate.reach, field.tag, body) {
            Ok(()) => {
                let done = apply_field(plate, field.tag, body, out, end);
                plate = done.plate;
                end = done.end;
            }
            Err(why) => end = put_line(out, end, why.reason.number(), plate.count),
        }
        rest = behind;
    }
}

// Writes the whole answer to the front of `out` and gives its length.
pub fn answer_sheet(sheet: &[u8], out: &mut [u8; TEXT]) -> usize
    ensures { SheetText sheet.now out.old result out.new }
{
    if LONGEST < sheet.len() {
        return put_line(out, 0, Reason::SheetTooLong.number(), 0);
    }
    write_lines(sheet, out)
}

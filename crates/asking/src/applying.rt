// A field put to a plate.
ghost use Rattle.std.specs.Prelude.{◌≡◌, length};
ghost use Rattle.plate.specs.Histories.{change};
ghost use Rattle.plate.specs.Plates.{Promise};
ghost use Rattle.fields.specs.Tags.{length_of};
ghost use Rattle.asking.specs.Calls.{place_in, shift_in, call_of};

use fields::Tag;
use packing::{array_at, byte_at};
use plate::{Plate, PlateAnswer};

fn apply_place(plate: Plate, body: &[u8]) -> PlateAnswer
    requires { length body.now ≡ 38 }
    ensures { Promise plate (change (place_in body.now)) result }
{
    let numbers = array_at::<9>(body, 2);
    plate::place(plate, byte_at(body, 0), byte_at(body, 1), &numbers)
}

fn apply_shift(plate: Plate, body: &[u8]) -> PlateAnswer
    requires { length body.now ≡ 13 }
    ensures { Promise plate (change (shift_in body.now)) result }
{
    let [dx, dy, dz] = array_at::<3>(body, 1);
    plate::shift(plate, byte_at(body, 0), dx, dy, dz)
}

// The call that a field asks for. The body is lent as it lies in the sheet, and read here and in checking.rt: see lib.rt.
#[tactic(auto, unfolding(crate::specs::Calls::call_of))]
pub fn apply(plate: Plate, tag: Tag, body: &[u8]) -> PlateAnswer
    requires { length body.now ≡ length_of tag }
    ensures { Promise plate (call_of tag body.now) result }
{
    match tag {
        Tag::Place => apply_place(plate, body),
        Tag::Lift => plate::lift(plate, byte_at(body, 0)),
        Tag::Shift => apply_shift(plate, body),
        Tag::Undo => plate::undo(plate),
    }
}

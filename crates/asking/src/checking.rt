// What the checks of a field's call find, asked of the plate's slots and reach.
ghost use Rattle.std.specs.Prelude.{◌≡◌, List, map, length};
ghost use Rattle.checks.specs.Answers.{number_of};
ghost use Rattle.checks.specs.Told.{told_check};
ghost use Rattle.slots.specs.Slots.{Slot};
ghost use Rattle.slots.specs.Arrays.{mark_of};
ghost use Rattle.slots.specs.Showing.{Shown};
ghost use Rattle.reasons.specs.Rules.{change_checks};
ghost use Rattle.plate.specs.Histories.{History, slots_of, outcome};
ghost use Rattle.fields.specs.Tags.{length_of};
ghost use Rattle.asking.specs.Calls.{place_in, shift_in, call_of};

use checks::Refusal;
use fields::Tag;
use packing::{array_at, byte_at};
use reasons::{lift_checked, undo_checked};
use slots::Slots;

fn place_checked(slots: &Slots, body: &[u8]) -> Result<(), Refusal>
    requires { length body.now ≡ 38 }
    ensures { (S : List Slot) → slots.now.marks ≡ map mark_of S → told_check result ≡ change_checks S (place_in body.now) }
{
    let numbers = array_at::<9>(body, 2);
    reasons::place_checked(slots, byte_at(body, 0), byte_at(body, 1), &numbers)
}

fn shift_checked(slots: &Slots, body: &[u8]) -> Result<(), Refusal>
    requires { length body.now ≡ 13 }
    ensures { (S : List Slot) → Shown S slots.now.coords slots.now.marks → told_check result ≡ change_checks S (shift_in body.now) }
{
    let [dx, dy, dz] = array_at::<3>(body, 1);
    reasons::shift_checked(slots, byte_at(body, 0), dx, dy, dz)
}

// The number of what is found is that of the call's outcome.
#[tactic(auto, using(crate::proofs::CallLaws::change_number, crate::proofs::CallLaws::undo_number), unfolding(crate::specs::Calls::call_of))]
pub fn field_checked(slots: &Slots, reach: usize, tag: Tag, body: &[u8]) -> Result<(), Refusal>
    requires { length body.now ≡ length_of tag }
    ensures { (h : History) → Shown (slots_of h) slots.now.coords slots.now.marks → reach ≡ h.reach → number_of (told_check result) ≡ number_of (outcome h (call_of tag body.now)) }
{
    match tag {
        Tag::Place => place_checked(slots, body),
        Tag::Lift => lift_checked(slots, byte_at(body, 0)),
        Tag::Shift => shift_checked(slots, body),
        Tag::Undo => undo_checked(reach),
    }
}

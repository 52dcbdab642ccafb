// The empty plate, and the calls that change a plate: place, lift, shift and undo.
ghost use Rattle.std.specs.Prelude.{◌≡◌, []};
ghost use Rattle.checks.specs.Told.{told_check, told_refusal};
ghost use Rattle.slots.specs.Changes.{place, lift, shift};
ghost use Rattle.plate.specs.Histories.{run, change, undo};
ghost use Rattle.plate.specs.Plates.{Stands, Promise};

use checks::Refusal;
use keeping::{Plate, blank_entry, changed, popped, restored, slid};
use reasons::{lift_checked, place_checked, shift_checked, thrice, undo_checked};
use slots::{Slots, mark_for};

// The plate after a call, and what the call found: nothing to refuse, or why it refused.
// A struct and no `Result` of a plate alone: `Promise` says what the plate is after a refusal, too.
#[derive(Clone, Copy)]
pub struct PlateAnswer {
    pub plate: Plate,
    pub told: Result<(), Refusal>,
}

// An empty plate: nothing in any slot, nothing to undo.
pub fn empty() -> Plate
    ensures { Stands (run []) result }
{
    Plate {
        slots: Slots {
            coords: [0; 576],
            marks: [0; 64],
        },
        journal: [blank_entry(); 32],
        reach: 0,
        count: 0,
    }
}

// The answer of a call that is refused: the plate as it stood, and why.
fn refusal(plate: Plate, why: Refusal) -> PlateAnswer
    ensures { (result.plate ≡ plate) × (told_check result.told ≡ told_refusal why) }
{
    PlateAnswer {
        plate,
        told: Err(why),
    }
}

// Fills an empty slot with a triangle of a part, nine numbers.
pub fn place(plate: Plate, slot: usize, part: usize, triangle: &[i32]) -> PlateAnswer
    ensures { Promise plate (change (place slot part triangle.now)) result }
{
    match place_checked(&plate.slots, slot, part, triangle) {
        Ok(()) => PlateAnswer {
            plate: changed(plate, slot, mark_for(part), triangle),
            told: Ok(()),
        },
        Err(why) => refusal(plate, why),
    }
}

// Empties a filled slot.
pub fn lift(plate: Plate, slot: usize) -> PlateAnswer
    ensures { Promise plate (change (lift slot)) result }
{
    match lift_checked(&plate.slots, slot) {
        Ok(()) => PlateAnswer {
            plate: changed(plate, slot, 0, &[0; 9]),
            told: Ok(()),
        },
        Err(why) => refusal(plate, why),
    }
}

// Moves every triangle of a part.
pub fn shift(plate: Plate, part: usize, dx: i32, dy: i32, dz: i32) -> PlateAnswer
    ensures { Promise plate (change (shift part dx dy dz)) result }
{
    match shift_checked(&plate.slots, part, dx, dy, dz) {
        Ok(()) => PlateAnswer {
            plate: slid(plate, mark_for(part), thrice(dx, dy, dz)),
            told: Ok(()),
        },
        Err(why) => refusal(plate, why),
    }
}

// Takes back the latest change.
pub fn undo(plate: Plate) -> PlateAnswer
    ensures { Promise plate undo result }
{
    match undo_checked(plate.reach) {
        Ok(()) => {
            let before = Plate {
                journal: popped(plate.journal),
                reach: plate.reach - 1,
                ..plate
            };
            PlateAnswer {
                plate: restored(before, plate.journal[0]),
                told: Ok(()),
            }
        }
        Err(why) => refusal(plate, why),
    }
}

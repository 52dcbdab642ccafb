// The plate, and the steps that its calls are made of. Each step that changes slots takes the clashes of what it touches off the count before
// and puts them on after, so that the count is never kept from before a change. The sums may wrap, so that a step is safe on any value of the
// struct; on a plate that the calls made none does.
ghost use Rattle.std.specs.Prelude.{◌≡◌, ◌<◌, length};
ghost use Rattle.moving.specs.Moves.{steps};
ghost use Rattle.keeping.specs.Steps.{Written, Nudged, Noted, Changed, Slid, Restored, Recounted};
ghost use Rattle.std.specs.Fn.{FnReturnsAt, FnOnceReturnsAtMut};

use crate::journal::{Entry, pushed, raised};
use slots::Slots;

// The plate. There is no heap: the journal has room for 32, and `reach` says how many stand.
#[derive(Clone, Copy)]
pub struct Plate {
    pub slots: Slots,
    pub journal: [Entry; 32],
    pub reach: usize,
    pub count: u32,
}

// The plate with its slots changed, and the count with them: what `clashes` counts is what the change touches. It is changed where it lies: built
// anew from its parts, a shift took a quarter longer.
fn recounted<C: Fn(&Slots) -> u32, E: FnOnce(&mut Slots)>(
    mut plate: Plate,
    clashes: C,
    change: E,
) -> Plate
    requires clashes { C.IsAlwaysCallable clashes }
    requires change { E.IsAlwaysCallable change }
    ensures { Recounted plate (FnReturnsAt C.Fn clashes) (FnOnceReturnsAtMut E.FnOnce change) result }
{
    let less = clashes(&plate.slots);
    change(&mut plate.slots);
    let more = clashes(&plate.slots);
    plate.count = plate.count.wrapping_sub(less).wrapping_add(more);
    plate
}

// Writes a slot.
fn written(plate: Plate, slot: usize, mark: u8, numbers: &[i32]) -> Plate
    requires { (slot < 64) × (length numbers.now ≡ 9) }
    ensures { Written plate slot mark numbers.now result }
{
    recounted(
        plate,
        |slots| slots.slot_clashes(slot),
        |slots| slots.write(slot, mark, numbers),
    )
}

// Moves the slots of a mark.
fn nudged(plate: Plate, mark: u8, by: &[i32; 9], back: bool) -> Plate
    ensures { Nudged plate mark (steps back by.now) result }
{
    recounted(
        plate,
        |slots| slots.part_clashes(mark),
        |slots| slots.move_part(mark, by, back),
    )
}

// Notes an entry in the journal.
fn noted(mut plate: Plate, latest: Entry) -> Plate
    ensures { Noted plate latest result }
{
    let journal = pushed(plate.journal, latest);
    plate.journal = journal;
    plate.reach = raised(plate.reach);
    plate
}

// Writes a slot and notes what stood there.
pub fn changed(plate: Plate, slot: usize, mark: u8, numbers: &[i32]) -> Plate
    requires { (slot < 64) × (length numbers.now ≡ 9) }
    ensures { Changed plate slot mark numbers.now result }
{
    let mut stood = [0; 9];
    stood.copy_from_slice(plate.slots.numbers(slot));
    let latest = Entry::Stood {
        slot,
        mark: plate.slots.marks[slot],
        numbers: stood,
    };
    written(noted(plate, latest), slot, mark, numbers)
}

// Moves the slots of a mark and notes the steps.
pub fn slid(plate: Plate, mark: u8, by: [i32; 9]) -> Plate
    ensures { Slid plate mark by result }
{
    nudged(noted(plate, Entry::Shift { mark, by }), mark, &by, false)
}

// Puts back what an entry of the journal keeps.
pub fn restored(plate: Plate, latest: Entry) -> Plate
    ensures { Restored plate latest result }
{
    match latest {
        Entry::Stood {
            slot,
            mark,
            numbers,
        } if slot < 64 => written(plate, slot, mark, &numbers),
        Entry::Stood { .. } => plate,
        Entry::Shift { mark, by } => nudged(plate, mark, &by, true),
    }
}

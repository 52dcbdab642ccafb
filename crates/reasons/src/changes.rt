// The checks of each change, and those that they share with the question of two parts.
ghost use Rattle.std.specs.Prelude.{◌≡◌, List, map, ◌≤◌};
ghost use Rattle.checks.specs.Answers.{◌then◌};
ghost use Rattle.checks.specs.Rules.{right_length, refuses_flat, shape_checks};
ghost use Rattle.checks.specs.Told.{told_check};
ghost use Rattle.slots.specs.Slots.{Slot};
ghost use Rattle.slots.specs.Arrays.{mark_of};
ghost use Rattle.slots.specs.Changes.{thrice};
ghost use Rattle.slots.specs.Showing.{Shown};
ghost use Rattle.reasons.specs.Findings.{PlaceFound, LiftFound, ShiftFound, undo_found};
ghost use Rattle.reasons.specs.Rules.{slot_within, part_within, slot_free, slot_filled, part_present, part_stays};

use checks::{Reason, Refusal, length_checked, shape_checked};
use kernel::Kind;
use slots::{Slots, mark_for};

// Refusal 6.
fn slot_checked(slot: usize) -> Result<(), Refusal>
    ensures { told_check result ≡ slot_within slot }
{
    if 63 < slot {
        return Err(Refusal::new(Reason::NoSuchSlot, 0, slot));
    }
    Ok(())
}

// Refusal 7.
pub fn part_checked(side: u32, part: usize) -> Result<(), Refusal>
    ensures { told_check result ≡ part_within side part }
{
    if 15 < part {
        return Err(Refusal::new(Reason::NoSuchPart, side, part));
    }
    Ok(())
}

// Refusal 8.
fn free_checked(slots: &Slots, slot: usize) -> Result<(), Refusal>
    requires { slot ≤ 63 }
    ensures { (S : List Slot) → slots.now.marks ≡ map mark_of S → told_check result ≡ slot_free S slot }
{
    if slots.marks[slot] != 0 {
        return Err(Refusal::new(Reason::SlotFilled, 0, slot));
    }
    Ok(())
}

// Refusal 9.
fn filled_checked(slots: &Slots, slot: usize) -> Result<(), Refusal>
    requires { slot ≤ 63 }
    ensures { (S : List Slot) → slots.now.marks ≡ map mark_of S → told_check result ≡ slot_filled S slot }
{
    if slots.marks[slot] == 0 {
        return Err(Refusal::new(Reason::SlotEmpty, 0, slot));
    }
    Ok(())
}

// Refusal 10.
pub fn present_checked(side: u32, slots: &Slots, part: usize) -> Result<(), Refusal>
    requires { part ≤ 15 }
    ensures { (S : List Slot) → slots.now.marks ≡ map mark_of S → told_check result ≡ part_present side S part }
{
    if !slots.has_mark(mark_for(part)) {
        return Err(Refusal::new(Reason::PartAbsent, side, part));
    }
    Ok(())
}

// Refusal 11.
fn stays_checked(slots: &Slots, part: usize, by: &[i32; 9]) -> Result<(), Refusal>
    requires { part ≤ 15 }
    ensures { (S : List Slot) → Shown S slots.now.coords slots.now.marks → told_check result ≡ part_stays S part by.now }
{
    match slots.lowest_leaving(mark_for(part), by) {
        Some(slot) => Err(Refusal::new(Reason::LeavesGrid, 0, slot)),
        None => Ok(()),
    }
}

// Refusals 6, 7, 3, 1 and 2 of a place, in this order.
fn placing_checked(slot: usize, part: usize, triangle: &[i32]) -> Result<(), Refusal>
    ensures { told_check result ≡ slot_within slot then part_within 0 part then right_length 0 9 triangle.now then shape_checks refuses_flat 3 3 0 triangle.now }
{
    slot_checked(slot)?;
    part_checked(0, part)?;
    length_checked(0, 9, triangle)?;
    shape_checked(Kind::SpaceTriangle, 0, triangle)
}

// Refusals 6, 7, 3, 1, 2 and 8 of a place, in this order.
pub fn place_checked(
    slots: &Slots,
    slot: usize,
    part: usize,
    triangle: &[i32],
) -> Result<(), Refusal>
    ensures { PlaceFound slots.now.marks slot part triangle.now (told_check result) }
{
    placing_checked(slot, part, triangle)?;
    free_checked(slots, slot)
}

// Refusals 6 and 9 of a lift, in this order.
pub fn lift_checked(slots: &Slots, slot: usize) -> Result<(), Refusal>
    ensures { LiftFound slots.now.marks slot (told_check result) }
{
    slot_checked(slot)?;
    filled_checked(slots, slot)
}

// The steps of the nine numbers of a triangle.
pub fn thrice(dx: i32, dy: i32, dz: i32) -> [i32; 9]
    ensures { result ≡ thrice dx dy dz }
{
    [dx, dy, dz, dx, dy, dz, dx, dy, dz]
}

// Refusals 7, 10 and 11 of a shift, in this order.
pub fn shift_checked(slots: &Slots, part: usize, dx: i32, dy: i32, dz: i32) -> Result<(), Refusal>
    ensures { ShiftFound slots.now.coords slots.now.marks part dx dy dz (told_check result) }
{
    part_checked(0, part)?;
    present_checked(0, slots, part)?;
    stays_checked(slots, part, &thrice(dx, dy, dz))
}

// Refusal 12 of an undo.
pub fn undo_checked(reach: usize) -> Result<(), Refusal>
    ensures { told_check result ≡ undo_found reach }
{
    if reach == 0 {
        return Err(Refusal::new(Reason::NothingToUndo, 0, 0));
    }
    Ok(())
}

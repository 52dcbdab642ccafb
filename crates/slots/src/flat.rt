// The slots of a plate in two flat arrays: read, written, and the slots of a part moved.
ghost use Rattle.std.specs.Prelude.{◌≡◌, List, ℕ, suc, ◌≤◌, ◌<◌, length, slice_index_or, slice_set, MatchOption};
ghost use Rattle.moving.specs.Moves.{steps};
ghost use Rattle.slots.specs.Slots.{Slot, free};
ghost use Rattle.shape.specs.Lists.{some, lowest};
ghost use Rattle.slots.specs.Arrays.{numbers_of, mark_of};
ghost use Rattle.slots.specs.Counting.{has_mark};
ghost use Rattle.slots.specs.Leaving.{leaves};
ghost use Rattle.slots.specs.Showing.{nine_at, FitSlot, Shown, PartMoved};

use moving::{move_numbers, stay_on};

// Slot i has the nine coordinates from 9 * i on (zeros where it is empty), and the mark i: 0 where it is empty, else its part number plus one.
// The marks are numbers, 0 for none, since document 01 has a plate of flat arrays of coordinates and part numbers.
// A slot's number is a `usize` as in the calls: each method asks that it is one.
// It has no model: not each value of the struct shows slots (`Shown`), and so each clause speaks of those that it does.
#[derive(Clone, Copy)]
pub struct Slots {
    pub coords: [i32; 576],
    pub marks: [u8; 64],
}

// The mark of a part.
pub fn mark_for(part: usize) -> u8
    requires { part ≤ 15 }
    ensures { result ≡ suc part }
{
    (part + 1) as u8
}

impl Slots {
    // The nine coordinates of a slot.
    pub fn numbers(&self, i: usize) -> &[i32]
        requires { i < 64 }
        ensures value { result.now ≡ nine_at i self.now.coords }
        ensures len { length result.now ≡ 9 }
    {
        &self.coords[9 * i..9 * i + 9]
    }

    // Writes a slot: its mark and its nine coordinates.
    pub fn write(&mut self, i: usize, mark: u8, numbers: &[i32])
        requires { (i < 64) × (length numbers.now ≡ 9) }
        ensures { (S : List Slot) (x : Slot) → Shown S self.old.coords self.old.marks → FitSlot x → mark ≡ mark_of x → numbers.now ≡ numbers_of x →
            Shown (slice_set S i x) self.new.coords self.new.marks }
    {
        self.coords[9 * i..9 * i + 9].copy_from_slice(numbers);
        self.marks[i] = mark;
    }

    // Whether some slot has this mark.
    pub fn has_mark(&self, mark: u8) -> bool
        ensures { result ≡ some (has_mark mark) self.now.marks }
    {
        self.marks.contains(&mark)
    }

    // Moves every slot of a mark.
    // The slots are counted: of what `chunks_exact_mut` lends only the length is known once it is written.
    pub fn move_part(&mut self, mark: u8, by: &[i32; 9], back: bool)
        ensures coords { PartMoved self.old.coords self.old.marks mark (steps back by.now) self.new.coords }
        ensures marks { self.new.marks ≡ self.old.marks }
    {
        for i in 0..64 {
            if self.marks[i] == mark {
                move_numbers(&mut self.coords[9 * i..9 * i + 9], by, back);
            }
        }
    }

    // Whether a slot has this mark and would leave the grid.
    fn slot_leaves(&self, i: usize, mark: u8, by: &[i32; 9]) -> bool
        requires { i < 64 }
        ensures { (S : List Slot) (q : ℕ) → Shown S self.now.coords self.now.marks → mark ≡ suc q → result ≡ leaves q by.now (slice_index_or S i free) }
    {
        self.marks[i] == mark && !stay_on(self.numbers(i), by)
    }

    // The lowest slot that would leave the grid if this mark moved.
    pub fn lowest_leaving(&self, mark: u8, by: &[i32; 9]) -> Option<usize>
        ensures { (S : List Slot) (q : ℕ) → Shown S self.now.coords self.now.marks → mark ≡ suc q →
            MatchOption result (lowest (leaves q by.now) S ≡ 64) (λ i. (i < 64) × (lowest (leaves q by.now) S ≡ i)) }
    {
        (0..64).find(|i| self.slot_leaves(*i, mark, by))
    }
}

// Clashes between slots, and the triangles of a part, of slots that lie on the grid.
ghost use Rattle.std.specs.Prelude.{◌≡◌, true, false, List, ◌≤◌, ◌<◌, slice_index_or, MatchOption};
ghost use Rattle.checks.specs.Grid.{all_on};
ghost use Rattle.exact.specs.Grid.{Ready};
ghost use Rattle.slots.specs.Slots.{Slot, free};
ghost use Rattle.slots.specs.Counting.{strikes, row, cross, strikes_mark, marks_strike};
ghost use Rattle.slots.specs.Showing.{Shown, Gathered};

use crate::flat::Slots;
use checks::all_on;
use kernel::triangles_meet;

// Slots whose coordinates all lie on the grid, as the pair test asks.
#[derive(Clone, Copy)]
pub struct GridSlots<'a> {
    pub slots: &'a Slots,
    ghost on: { all_on slots.now.coords ≡ true },
}

impl<'a> GridSlots<'a> {
    // Whether two slots clash.
    fn strikes(self, i: usize, j: usize) -> bool
        requires { (i < 64) × (j < 64) }
        ensures { (S : List Slot) → Shown S self.entry.slots.now.coords self.entry.slots.now.marks → result ≡ strikes (slice_index_or S i free) (slice_index_or S j free) }
    {
        let p = self.slots.marks[i];
        let q = self.slots.marks[j];
        p != 0 && q != 0 && p != q && triangles_meet(self.slots.numbers(i), self.slots.numbers(j))
    }

    // How many slots clash with a slot.
    // Its own part is passed over by a test of its own, and what `strikes` says is added: a `filter` that is counted has all its tests joined by the
    // compiler, and then a part of many slots took a quarter longer.
    fn slot_clashes(self, i: usize) -> u32
        requires { i < 64 }
        ensures most { result ≤ 64 }
        ensures row { (S : List Slot) → Shown S self.entry.slots.now.coords self.entry.slots.now.marks → result ≡ row (slice_index_or S i free) S }
    {
        if self.slots.marks[i] == 0 {
            return 0;
        }
        let mut n = 0;
        for j in 0..64 {
            if self.slots.marks[j] != self.slots.marks[i] {
                n += u32::from(self.strikes(i, j));
            }
        }
        n
    }

    // The clashes of all slots with this mark.
    // Added up here: `cross` adds slot by slot, and a sum after `map` would need its bound again.
    fn part_clashes(self, mark: u8) -> u32
        ensures { (S : List Slot) → Shown S self.entry.slots.now.coords self.entry.slots.now.marks → result ≡ cross mark S S }
    {
        let mut n = 0;
        for i in 0..64 {
            if self.slots.marks[i] == mark {
                n += self.slot_clashes(i);
            }
        }
        n
    }

    // Whether a slot clashes with some slot of this mark.
    fn strikes_mark(self, i: usize, mark: u8) -> bool
        requires { i < 64 }
        ensures { (S : List Slot) → Shown S self.entry.slots.now.coords self.entry.slots.now.marks → result ≡ strikes_mark mark (slice_index_or S i free) S }
    {
        (0..64).any(|j| self.slots.marks[j] == mark && self.strikes(i, j))
    }

    // Whether some slot of the first mark clashes with some slot of the second.
    fn marks_strike(self, first: u8, second: u8) -> bool
        ensures { (S : List Slot) → Shown S self.entry.slots.now.coords self.entry.slots.now.marks → result ≡ marks_strike first second S }
    {
        (0..64).any(|i| self.slots.marks[i] == first && self.strikes_mark(i, second))
    }

    // Copies the numbers of each slot of a mark, one slot after the other, to the front of a list, and tells how many slots there are.
    // There is no heap: the room is the caller's, and how much of it is filled is told.
    // `many` is counted: how many slots have the mark is known at the end, and is what is told.
    pub fn gather_part(self, mark: u8, triangles: &mut [i32; 576]) -> usize
        requires { Ready 576 triangles.old }
        ensures { Gathered self.entry.slots.now.coords self.entry.slots.now.marks mark triangles.new result }
    {
        let mut many = 0;
        for i in 0..64 {
            if self.slots.marks[i] == mark {
                triangles[9 * many..9 * many + 9].copy_from_slice(self.slots.numbers(i));
                many += 1;
            }
        }
        many
    }
}

// Any slots. Off the grid, where no accepted change leaves them, there are no clashes.
impl Slots {
    // The same slots, if all their coordinates lie on the grid.
    pub fn on_grid(&self) -> Option<GridSlots<'_>>
        ensures { MatchOption result (all_on self.now.coords ≡ false) (λ on. on.slots.now ≡ self.now) }
    {
        if all_on(&self.coords) {
            Some(GridSlots { slots: self })
        } else {
            None
        }
    }

    // How many slots clash with a slot.
    pub fn slot_clashes(&self, i: usize) -> u32
        requires { i < 64 }
        ensures { (S : List Slot) → Shown S self.now.coords self.now.marks → result ≡ row (slice_index_or S i free) S }
    {
        self.on_grid().map_or(0, |on| on.slot_clashes(i))
    }

    // The clashes of all slots with this mark.
    pub fn part_clashes(&self, mark: u8) -> u32
        ensures { (S : List Slot) → Shown S self.now.coords self.now.marks → result ≡ cross mark S S }
    {
        self.on_grid().map_or(0, |on| on.part_clashes(mark))
    }

    // Whether some slot of the first mark clashes with some slot of the second. A match: `is_some_and` was tried, and its proof didn't close.
    pub fn marks_strike(&self, first: u8, second: u8) -> bool
        ensures { (S : List Slot) → Shown S self.now.coords self.now.marks → result ≡ marks_strike first second S }
    {
        match self.on_grid() {
            Some(on) => on.marks_strike(first, second),
            None => false,
        }
    }
}

// The journal: what an undo needs of the latest changes, 32 at most. Entry 0 is of the latest change that stands, entry 1 of the one before
// it, and so on; past the reach all entries are blank.
ghost use Rattle.std.specs.Prelude.{◌≡◌, suc, min, [], ◌∷◌, ◌++◌, take, drop};
ghost use Rattle.keeping.specs.Journal.{blank};

#[derive(Clone, Copy)]
pub enum Entry {
    // Of a shift: the mark of its part, and the steps of the nine numbers of a triangle. A blank is one of mark 0 by nothing. It is the first
    // case, so that a blank is nothing but zeros: else an empty plate took three times as long to make.
    Shift {
        mark: u8,
        by: [i32; 9],
    },
    // Of a place or a lift: the slot, with the mark and the numbers that stood there before.
    Stood {
        slot: usize,
        mark: u8,
        numbers: [i32; 9],
    },
}

// What stands past the reach. A blank is no case of its own: past the reach no entry is read.
pub fn blank_entry() -> Entry
    ensures { result ≡ blank }
{
    Entry::Shift {
        mark: 0,
        by: [0; 9],
    }
}

// The journal after a change. The oldest entry falls out.
pub fn pushed(mut journal: [Entry; 32], latest: Entry) -> [Entry; 32]
    ensures { result ≡ latest ∷ take 31 journal }
{
    journal.copy_within(0..31, 1);
    journal[0] = latest;
    journal
}

// The journal after an undo.
pub fn popped(mut journal: [Entry; 32]) -> [Entry; 32]
    ensures { result ≡ drop 1 journal ++ (blank ∷ []) }
{
    journal.copy_within(1..32, 0);
    journal[31] = blank_entry();
    journal
}

// The reach after a change.
pub fn raised(reach: usize) -> usize
    ensures { result ≡ min 32 (suc reach) }
{
    reach.min(31) + 1
}

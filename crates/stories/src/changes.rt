// Many changes of a plate at once.
use plate::Plate;
use std::ops::Range;

// Document 01's piece A, in space.
const A: [i32; 9] = [0, 0, 0, 4, 0, 0, 0, 4, 0];

// Places A in each of the slots, its part the remainder of the slot's number by 16. Each place is a change, and each two of these slots
// clash where their parts differ.
pub fn fill(mut plate: Plate, slots: Range<usize>) -> Plate {
    for slot in slots {
        plate = plate::place(plate, slot, slot % 16, &A).plate;
    }
    plate
}

pub fn undo_times(mut plate: Plate, times: usize) -> Plate {
    for _ in 0..times {
        plate = plate::undo(plate).plate;
    }
    plate
}

// How many undos are served before one is refused, 100 at most.
pub fn undos_served(mut plate: Plate) -> usize {
    for served in 0..100 {
        let answer = plate::undo(plate);
        if answer.told.is_err() {
            return served;
        }
        plate = answer.plate;
    }
    100
}

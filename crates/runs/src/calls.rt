// One call of a run.
ghost use Rattle.std.specs.Prelude.{◌≡◌, List, ℤ, ◌+◌, ◌*◌, ◌<◌, length, get_or};
ghost use Rattle.runs.specs.PlateRuns.{ask_of, ask_by, decoded_as, six_of, CallKept, ChangeKept};

use plate::{Plate, PlateAnswer};
use telling::{Numbers, numbers_of};

// What a call asks for, but for the numbers that a place and a shift take.
#[derive(Clone, Copy, Debug, PartialEq, Eq)]
pub enum Asked {
    Place { slot: usize, part: usize },
    Lift { slot: usize },
    Shift { part: usize },
    Undo,
    Parts { p: usize, q: usize },
}

// What three numbers ask for, a kind and two more. The C interface numbers the kinds; there are no others.
fn decoded(kind: u32, first: usize, second: usize) -> Option<Asked>
    ensures { (numbers : List ℤ) → decoded_as result numbers ≡ ask_of kind first second numbers }
{
    match kind {
        1 => Some(Asked::Place {
            slot: first,
            part: second,
        }),
        2 => Some(Asked::Lift { slot: first }),
        3 => Some(Asked::Shift { part: first }),
        4 => Some(Asked::Undo),
        5 => Some(Asked::Parts {
            p: first,
            q: second,
        }),
        _ => None,
    }
}

// What call k asks for.
pub fn asked_at(calls: &[u32], k: usize) -> Option<Asked>
    requires { 3 * k + 2 < length calls.now }
    ensures { (numbers : List ℤ) → decoded_as result numbers ≡ ask_of (get_or calls.now (3 * k) 0) (get_or calls.now (3 * k + 1) 0) (get_or calls.now (3 * k + 2) 0) numbers }
{
    let c = 3 * k;
    decoded(calls[c], calls[c + 1] as usize, calls[c + 2] as usize)
}

// The plate after a call, and the four numbers of its answer.
#[derive(Clone, Copy)]
pub struct CallAnswer {
    pub plate: Plate,
    pub numbers: Numbers,
}

// The answer of a call that changes the plate.
fn change_answer(answer: PlateAnswer) -> CallAnswer
    ensures { ChangeKept answer result }
{
    CallAnswer {
        plate: answer.plate,
        numbers: numbers_of(answer.told),
    }
}

// One call.
pub fn ask(plate: Plate, asked: Asked, numbers: &[i32]) -> CallAnswer
    requires { length numbers.now ≡ 9 }
    ensures { CallKept (ask_by asked numbers.now) plate result }
{
    match asked {
        Asked::Place { slot, part } => change_answer(plate::place(plate, slot, part, numbers)),
        Asked::Lift { slot } => change_answer(plate::lift(plate, slot)),
        Asked::Shift { part } => {
            change_answer(plate::shift(plate, part, numbers[0], numbers[1], numbers[2]))
        }
        Asked::Undo => change_answer(plate::undo(plate)),
        Asked::Parts { p, q } => CallAnswer {
            plate,
            numbers: numbers_of(plate::parts(plate, p, q)),
        },
    }
}

// Writes the six numbers of a call: the four of its answer, with the count and the reach of the plate after it.
pub fn put_six(six: &mut [u64], numbers: Numbers, count: u32, reach: usize)
    requires { length six.old ≡ 6 }
    ensures { six.new ≡ six_of numbers count reach }
{
    six.copy_from_slice(&[
        numbers.number,
        numbers.side,
        numbers.place,
        u64::from(count),
        reach as u64,
        numbers.value,
    ]);
}

// A run of calls from the empty plate.
ghost use Rattle.std.specs.Prelude.{◌≡◌, ◌/◌, min};
ghost use Rattle.runs.specs.PlateRuns.{PlateRun};

use crate::calls::{ask, asked_at, put_six};

// How many calls three lists of these lengths have room for.
fn room_for(calls: usize, numbers: usize, answers: usize) -> usize
    ensures { result ≡ min (calls / 3) (min (numbers / 9) (answers / 6)) }
{
    (calls / 3).min((numbers / 9).min(answers / 6))
}

// The run. Gives how many calls were done. The loop counts: of what `chunks_exact_mut` lends only the length is known once it is written.
pub fn run_calls(calls: &[u32], numbers: &[i32], answers: &mut [u64]) -> u64
    ensures { PlateRun calls.now numbers.now answers.old result answers.new }
{
    let room = room_for(calls.len(), numbers.len(), answers.len());
    let mut plate = plate::empty();
    for k in 0..room {
        let Some(asked) = asked_at(calls, k) else {
            return k as u64;
        };
        let told = ask(plate, asked, &numbers[9 * k..9 * k + 9]);
        plate = told.plate;
        put_six(
            &mut answers[6 * k..6 * k + 6],
            told.numbers,
            plate.count,
            plate.reach,
        );
    }
    room as u64
}

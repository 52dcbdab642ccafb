// The door of the plate: a run of calls from the empty plate.
ghost use Rattle.runs.specs.PlateRuns.{PlateRun};

// Gives how many of the calls were done.
pub fn zg_plate(calls: &[u32], numbers: &[i32], answers: &mut [u64]) -> u64
    ensures { PlateRun calls.now numbers.now answers.old result answers.new }
{
    runs::run_calls(calls, numbers, answers)
}

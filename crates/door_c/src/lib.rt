// The doors as C and Rust programs link them: each call of crate `door` under its own name, by the C calling convention, with the clauses that it
// has there. The kit makes a static library of a crate that no other stands on, so the calls themselves are in `door`. include/zimogrud.h declares
// them for C, include/zimogrud.rs for Rust.
#![tactic(auto)]

ghost use Rattle.checks.specs.Answers.{with_served};
ghost use Rattle.checks.specs.Rules.{refuses_flat, takes_flat};
ghost use Rattle.shape.specs.Signs.{digit};
ghost use Rattle.predicate.specs.Rules.{sign_rule};
ghost use Rattle.telling.specs.Numbers.{four_numbers};
ghost use Rattle.telling.specs.Buffer.{Written};
ghost use Rattle.runs.specs.PlateRuns.{PlateRun};
ghost use Rattle.answering.specs.Sheets.{SheetText};
ghost use Rattle.door.specs.Doors.{VerdictWritten, ListWritten, BytesTold};

use answering::TEXT;

#[unsafe(no_mangle)]
pub extern "C" fn zg_turn(points: &[i32], answer: &mut [u64]) -> u32
    ensures { Written (four_numbers (with_served digit (sign_rule 2 points.now))) answer.old result answer.new }
{
    door::zg_turn(points, answer)
}

#[unsafe(no_mangle)]
pub extern "C" fn zg_side(points: &[i32], answer: &mut [u64]) -> u32
    ensures { Written (four_numbers (with_served digit (sign_rule 3 points.now))) answer.old result answer.new }
{
    door::zg_side(points, answer)
}

#[unsafe(no_mangle)]
pub extern "C" fn zg_flat(a: &[i32], b: &[i32], answer: &mut [u64]) -> u32
    ensures { VerdictWritten refuses_flat 2 3 3 a.now b.now answer.old result answer.new }
{
    door::zg_flat(a, b, answer)
}

#[unsafe(no_mangle)]
pub extern "C" fn zg_segment(a: &[i32], b: &[i32], answer: &mut [u64]) -> u32
    ensures { VerdictWritten takes_flat 3 2 3 a.now b.now answer.old result answer.new }
{
    door::zg_segment(a, b, answer)
}

#[unsafe(no_mangle)]
pub extern "C" fn zg_pair(a: &[i32], b: &[i32], answer: &mut [u64]) -> u32
    ensures { VerdictWritten takes_flat 3 3 3 a.now b.now answer.old result answer.new }
{
    door::zg_pair(a, b, answer)
}

#[unsafe(no_mangle)]
pub extern "C" fn zg_pair_bytes(a: &[u8], b: &[u8]) -> u32
    ensures { BytesTold a.now b.now result }
{
    door::zg_pair_bytes(a, b)
}

#[unsafe(no_mangle)]
pub extern "C" fn zg_list(
    a: &[i32],
    b: &[i32],
    buffer: &mut [u32],
    start: usize,
    answer: &mut [u64],
) -> u32
    ensures { ListWritten a.now b.now buffer.old start answer.old result buffer.new answer.new }
{
    door::zg_list(a, b, buffer, start, answer)
}

#[unsafe(no_mangle)]
pub extern "C" fn zg_plate(calls: &[u32], numbers: &[i32], answers: &mut [u64]) -> u64
    ensures { PlateRun calls.now numbers.now answers.old result answers.new }
{
    door::zg_plate(calls, numbers, answers)
}

#[unsafe(no_mangle)]
pub extern "C" fn zg_sheet(sheet: &[u8], text: &mut [u8; TEXT]) -> usize
    ensures { SheetText sheet.now text.old result text.new }
{
    door::zg_sheet(sheet, text)
}

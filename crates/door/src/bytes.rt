// The door of the pair call for a viewer that holds triangles as bytes.
ghost use Rattle.std.specs.Prelude.{◌≡◌, length};
ghost use Rattle.door.specs.Doors.{VerdictTold, BytesTold};

use checks::{Reason, all_on};
use kernel::triangles_meet;
use packing::numbers_at;

// What the pair call answers to nine numbers each, in one number. It looks at the grid and asks the test, as that call does, and doesn't make
// that call: with a second caller it would no longer be compiled into `zg_pair`, which then takes an eighth to a fifth longer.
fn verdict_number(first: &[i32], second: &[i32]) -> u32
    requires { (length first.now ≡ 9) × (length second.now ≡ 9) }
    ensures { VerdictTold first.now second.now result }
{
    if !all_on(first) || !all_on(second) {
        return 100 + Reason::OffGrid.number();
    }
    u32::from(triangles_meet(first, second))
}

// Two triangles in space, 36 bytes each: nine numbers, low byte first. Gives 0 apart, 1 meeting, or 100 plus the number of the refusal.
pub fn zg_pair_bytes(a: &[u8], b: &[u8]) -> u32
    ensures { BytesTold a.now b.now result }
{
    if a.len() != 36 || b.len() != 36 {
        return 100 + Reason::WrongLength.number();
    }
    let mut first = [0i32; 9];
    numbers_at(a, 0, &mut first);
    let mut second = [0i32; 9];
    numbers_at(b, 0, &mut second);
    verdict_number(&first, &second)
}

// Whether the numbers of a list are so small that low words tell every side, as they did for all lists on the grid before Q-6.
ghost use Rattle.std.specs.Prelude.{◌≤◌, nat_abs};
ghost use Rattle.shape.specs.Verdicts.{Says};
ghost use Rattle.exact.specs.Small.{narrow, Narrow};

// The number `narrow` of crate `exact`'s specs/Small.antt.
const NARROW: u32 = 524_288;

// Whether a number is. A number of a normal is asked against another bound, in 64 bits, by `is_small` of crate `exact`.
fn is_small(x: i32) -> bool
    ensures { Says result (nat_abs x ≤ narrow) }
{
    x.unsigned_abs() <= NARROW
}

// Whether all numbers of a list are. No number ends the loop before its time: without an exit the compiler looks at
// several numbers at once.
pub fn is_narrow(numbers: &[i32]) -> bool
    ensures { Says result (Narrow numbers.now) }
{
    let mut narrow = true;
    for x in numbers {
        narrow &= is_small(*x);
    }
    narrow
}

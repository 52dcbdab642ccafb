// The grid, and the checks that come before anything is computed.
ghost use Rattle.std.specs.Prelude.{◌≡◌, not, position};
ghost use Rattle.checks.specs.Grid.{on_grid, lowest_off, all_on};
ghost use Rattle.checks.specs.Answers.{◌then◌};
ghost use Rattle.checks.specs.Rules.{right_length, all_on_grid};
ghost use Rattle.checks.specs.Told.{told_check};

use crate::answer::{Reason, Refusal};

// Every coordinate lies from -LIMIT to LIMIT, ends included. specs/Grid.antt of crate `exact` names the same number.
const LIMIT: i32 = 1_073_741_824;

// Whether a number is off the grid.
pub fn off_grid(z: i32) -> bool
    ensures { result ≡ not (on_grid z) }
{
    z < -LIMIT || LIMIT < z
}

// Whether every number is on the grid. No number ends the loop before its time: most lists are on the grid, and for them this is
// faster than seeking a place.
pub fn all_on(numbers: &[i32]) -> bool
    ensures { result ≡ all_on numbers.now }
{
    let mut on = true;
    for z in numbers {
        on &= !off_grid(*z);
    }
    on
}

// The position of the lowest number off the grid.
pub fn lowest_off(numbers: &[i32]) -> Option<usize>
    ensures { result ≡ position (λ z. not (on_grid z)) numbers.now }
{
    numbers.iter().position(|z| off_grid(*z))
}

// Refusal 3: a list of the wrong length.
pub fn length_checked(side: u32, want: usize, numbers: &[i32]) -> Result<(), Refusal>
    ensures { told_check result ≡ right_length side want numbers.now }
{
    if numbers.len() == want {
        Ok(())
    } else {
        Err(Refusal::new(Reason::WrongLength, side, numbers.len()))
    }
}

// Refusal 3 of two lists: the first, then the second.
pub fn lengths_checked(
    want: usize,
    first: &[i32],
    other: usize,
    second: &[i32],
) -> Result<(), Refusal>
    ensures { told_check result ≡ right_length 0 want first.now then right_length 1 other second.now }
{
    length_checked(0, want, first)?;
    length_checked(1, other, second)
}

// Refusal 1: a coordinate off the grid.
pub fn grid_checked(side: u32, numbers: &[i32]) -> Result<(), Refusal>
    ensures { told_check result ≡ all_on_grid side numbers.now }
{
    if all_on(numbers) {
        return Ok(());
    }
    match lowest_off(numbers) {
        Some(place) => Err(Refusal::new(Reason::OffGrid, side, place)),
        None => Ok(()),
    }
}

// Refusal 1 of two lists: the first, then the second.
pub fn grids_checked(first: &[i32], second: &[i32]) -> Result<(), Refusal>
    ensures { told_check result ≡ all_on_grid 0 first.now then all_on_grid 1 second.now }
{
    grid_checked(0, first)?;
    grid_checked(1, second)
}

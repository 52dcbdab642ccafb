// The checks of a listing's input: refusal 4 of the start, 3 of both lists, then 1 of both.
ghost use Rattle.std.specs.Prelude.{◌≡◌};
ghost use Rattle.checks.specs.Answers.{◌then◌};
ghost use Rattle.checks.specs.Rules.{all_on_grid};
ghost use Rattle.checks.specs.Told.{told_check};
ghost use Rattle.listing.specs.Rules.{start_within, list_length};

use checks::{Reason, Refusal, grids_checked};

// Refusal 4, where the whole buffer has room for so many numbers.
fn start_checked(start: usize, room: usize) -> Result<(), Refusal>
    ensures { told_check result ≡ start_within start room }
{
    if start <= room {
        Ok(())
    } else {
        Err(Refusal::new(Reason::StartBeyondEnd, 0, room))
    }
}

// Refusal 3.
fn list_length_checked(side: u32, numbers: &[i32]) -> Result<(), Refusal>
    ensures { told_check result ≡ list_length side numbers.now }
{
    if numbers.len() % 9 == 0 && numbers.len() <= 9_216 {
        Ok(())
    } else {
        Err(Refusal::new(Reason::WrongLength, side, numbers.len()))
    }
}

// All of them, in their order.
pub fn input_checked(a: &[i32], b: &[i32], start: usize, room: usize) -> Result<(), Refusal>
    ensures { told_check result ≡ start_within start room then list_length 0 a.now then list_length 1 b.now then all_on_grid 0 a.now then all_on_grid 1 b.now }
{
    start_checked(start, room)?;
    list_length_checked(0, a)?;
    list_length_checked(1, b)?;
    grids_checked(a, b)
}

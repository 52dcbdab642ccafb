// The public sign calls, and the determinants behind them. Three flat points are six numbers, four space points twelve.
ghost use Rattle.std.specs.Prelude.{◌≡◌};
ghost use Rattle.checks.specs.Answers.{◌then◌};
ghost use Rattle.checks.specs.Rules.{right_length, all_on_grid};
ghost use Rattle.checks.specs.Told.{told_check};
ghost use Rattle.predicate.specs.Rules.{value_rule, sign_rule};
ghost use Rattle.predicate.specs.Told.{told_value, told_wide, LowWord, told_sign};

use checks::{Refusal, grid_checked, length_checked};
use exact::{Sign, side_of, turn_of};
use wide::Wide;

// The refusals of a sign call: 3, then 1.
fn points_checked(want: usize, numbers: &[i32]) -> Result<(), Refusal>
    ensures { told_check result ≡ right_length 0 want numbers.now then all_on_grid 0 numbers.now }
{
    length_checked(0, want, numbers)?;
    grid_checked(0, numbers)
}

// The determinant of three flat points. It and the next stay two: each is a public promise of its own, over a number of its own size.
pub fn turn_value(points: &[i32]) -> Result<i64, Refusal>
    ensures { told_value result ≡ value_rule 2 points.now }
{
    points_checked(6, points)?;
    Ok(turn_of(points))
}

// The determinant of four space points, as the one whole number that its two words stand for.
pub fn side_value(points: &[i32]) -> Result<Wide, Refusal>
    ensures { (told_wide result ≡ value_rule 3 points.now) × LowWord result }
{
    points_checked(12, points)?;
    Ok(side_of(points))
}

// The sign calls stay two as well: each is a public promise of its own. The flat turn sign: whether the three points turn left (Positive), right (Negative) or lie on a line (Zero).
pub fn turn_sign(points: &[i32]) -> Result<Sign, Refusal>
    ensures { told_sign result ≡ sign_rule 2 points.now }
{
    Ok(Sign::from(turn_value(points)?))
}

// The spatial side sign.
pub fn side_sign(points: &[i32]) -> Result<Sign, Refusal>
    ensures { told_sign result ≡ sign_rule 3 points.now }
{
    Ok(Sign::from(side_value(points)?))
}

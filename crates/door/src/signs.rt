// The doors of the sign calls.
ghost use Rattle.checks.specs.Answers.{with_served};
ghost use Rattle.predicate.specs.Rules.{sign_rule};
ghost use Rattle.shape.specs.Signs.{digit};
ghost use Rattle.telling.specs.Numbers.{four_numbers};
ghost use Rattle.telling.specs.Buffer.{Written};

use telling::{numbers_of, put};

// The flat turn sign of six numbers, three points.
pub fn zg_turn(points: &[i32], answer: &mut [u64]) -> u32
    ensures { Written (four_numbers (with_served digit (sign_rule 2 points.now))) answer.old result answer.new }
{
    put(answer, numbers_of(predicate::turn_sign(points)))
}

// The spatial side sign of twelve numbers, four points.
pub fn zg_side(points: &[i32], answer: &mut [u64]) -> u32
    ensures { Written (four_numbers (with_served digit (sign_rule 3 points.now))) answer.old result answer.new }
{
    put(answer, numbers_of(predicate::side_sign(points)))
}

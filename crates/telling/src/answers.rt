// The four numbers of the answer of any call, by a number for what it serves.
ghost use Rattle.std.specs.Prelude.{◌≡◌, ℕ};
ghost use Rattle.shape.specs.Signs.{digit};
ghost use Rattle.exact.specs.SignNumbers.{sign_number};
ghost use Rattle.predicate.specs.Verdicts.{is_meeting};
ghost use Rattle.telling.specs.Numbers.{verdict_code, told_by, four_numbers, listed};

use crate::numbers::{Numbers, refused_numbers, served_numbers};
use checks::Refusal;
use predicate::{Sign, Verdict};

// What a call serves, which has a number.
pub trait Coded {
    ghost code: { Self → ℕ };

    fn code(self) -> u64
        ensures { result ≡ code self };
}

// Of a sign call.
impl Coded for Sign {
    ghost code = { λ served. digit (sign_number served) };

    fn code(self) -> u64 {
        match self {
            Sign::Negative => 0,
            Sign::Zero => 1,
            Sign::Positive => 2,
        }
    }
}

// Of a verdict call.
impl Coded for Verdict {
    ghost code = { λ served. verdict_code (is_meeting served) };

    fn code(self) -> u64 {
        match self {
            Verdict::Apart => 0,
            Verdict::Meeting => 1,
        }
    }
}

// Of a listing: the count of the pairs.
impl Coded for usize {
    ghost code = { λ served. served };

    fn code(self) -> u64 {
        self as u64
    }
}

// Of a call that changes a plate: it serves nothing.
impl Coded for () {
    ghost code = { λ served. 0 };

    fn code(self) -> u64 {
        0
    }
}

// The four numbers of an answer.
pub fn numbers_of<T: Coded>(told: Result<T, Refusal>) -> Numbers
    ensures { listed result ≡ four_numbers (told_by T.code told) }
{
    match told {
        Ok(served) => served_numbers(served.code()),
        Err(why) => refused_numbers(why),
    }
}

// The four numbers of an answer, and the buffer that they are written into. Nothing here knows what the calls serve.
ghost use Rattle.std.specs.Prelude.{◌≡◌};
ghost use Rattle.checks.specs.Answers.{served};
ghost use Rattle.checks.specs.Told.{told_refusal};
ghost use Rattle.telling.specs.Numbers.{four_numbers, listed};
ghost use Rattle.telling.specs.Buffer.{Written};

use checks::Refusal;

#[derive(Clone, Copy)]
pub struct Numbers {
    pub number: u64,
    pub side: u64,
    pub place: u64,
    pub value: u64,
}

// The numbers of an answer that serves, by the number of what it serves. 0 for served is the C interface's.
pub fn served_numbers(value: u64) -> Numbers
    ensures { listed result ≡ four_numbers (served value) }
{
    Numbers {
        number: 0,
        side: 0,
        place: 0,
        value,
    }
}

// The numbers of an answer that refuses.
pub fn refused_numbers(why: Refusal) -> Numbers
    ensures { listed result ≡ four_numbers (told_refusal why) }
{
    Numbers {
        number: u64::from(why.reason.number()),
        side: u64::from(why.side),
        place: why.place as u64,
        value: 0,
    }
}

// Writes the numbers to the front of the buffer and gives 0, or gives 1 where the buffer is too short for them: the C interface tells so.
pub fn put(answer: &mut [u64], numbers: Numbers) -> u32
    ensures { Written (listed numbers) answer.old result answer.new }
{
    match answer.first_chunk_mut::<4>() {
        None => 1,
        Some(front) => {
            *front = [numbers.number, numbers.side, numbers.place, numbers.value];
            0
        }
    }
}

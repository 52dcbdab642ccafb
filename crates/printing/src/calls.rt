// The calls that the rows of a table are put to. Each is handed to `rows` by its name.
use crate::answers::{Listed, Told, Valued, number, told_verdict, whole};
use crate::tables::Lists;

pub fn turn(lists: Lists<'_>) -> Valued<i64> {
    Valued {
        sign: Told {
            answer: predicate::turn_sign(lists.first).map(number),
        },
        value: Told {
            answer: predicate::turn_value(lists.first),
        },
    }
}

pub fn side(lists: Lists<'_>) -> Valued<i128> {
    Valued {
        sign: Told {
            answer: predicate::side_sign(lists.first).map(number),
        },
        value: Told {
            answer: predicate::side_value(lists.first).map(whole),
        },
    }
}

pub fn flat(lists: Lists<'_>) -> Told<&'static str> {
    told_verdict(predicate::flat_verdict(lists.first, lists.second))
}

pub fn segment(lists: Lists<'_>) -> Told<&'static str> {
    told_verdict(predicate::segment_verdict(lists.first, lists.second))
}

pub fn pair(lists: Lists<'_>) -> Told<&'static str> {
    told_verdict(predicate::pair_verdict(lists.first, lists.second))
}

// A listing into a buffer of seven numbers, each 99 before. A call of its own, so that the room of a listing is given back before the next row: within
// its caller it lay under all that the program does later, and `bench` took a third more stack.
#[inline(never)]
pub fn list(lists: Lists<'_>) -> Listed {
    let mut buffer = [99; 7];
    let pairs = Told {
        answer: listing::list_pairs(lists.first, lists.second, &mut buffer, lists.start),
    };
    Listed { pairs, buffer }
}

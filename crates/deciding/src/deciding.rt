// The verdicts on all pairs of two lists, each pair decided once and kept as a bit of a word. Boxes tell of most pairs that they are apart; the
// others are candidates, and a word of them is decided in stages.
ghost use Rattle.std.specs.Prelude.{◌≡◌, ◌*◌, ◌/◌, ◌≤◌, ◌<◌, length};
ghost use Rattle.words.specs.Spans.{first_of, span};
ghost use Rattle.boxes.specs.Triangles.{triangles, nine};
ghost use Rattle.boxes.specs.Boxes.{Sound};
ghost use Rattle.deciding.specs.Places.{Posed};
ghost use Rattle.deciding.specs.Lists.{Readied};
ghost use Rattle.deciding.specs.Stages.{Marked, JudgedAt};
ghost use Rattle.deciding.specs.Words.{MayMeet, MayMeetBelow, Verdicts, VerdictsBelow, ones_below};

use crate::places::{Bed, Pairs, Row};
use crate::standings::stand;
use crate::verdicts::Stances;
use boxes::{is_narrow, put_boxes, put_normals, put_planes};
use sifting::put_candidates;

// Two lists of triangles, and whether all numbers of both are small. Lists are whole beds, pairs are rows of them: `Pairs` alone is turned.
#[derive(Clone, Copy)]
struct Lists<'a> {
    narrow: bool,
    first: Bed<'a>,
    second: Bed<'a>,
}

// The verdicts on the pairs of a word. Only the candidates are looked at: how the second triangles stand to the planes of the first ones, how the first ones
// stand to the planes of those that are left, and the last signs of what is left then.
fn decide_word(pairs: &Pairs, candidates: u64) -> u64
    requires { Posed pairs.now candidates }
    ensures { Marked (JudgedAt pairs.now) 0 candidates result }
{
    let mut second = [0u32; 64];
    let near = stand(&pairs.turned(), &mut second, candidates, 0);
    let mut first = [0u32; 64];
    let both = stand(pairs, &mut first, near.kept, near.other);
    let stances = Stances {
        pairs: *pairs,
        first: &first,
        second: &second,
    };
    stances.judge(both.kept, both.other)
}

// The verdicts of word k of two lists, on one triangle of the first list and those of the second from one on, 64 at the most. Where there is no candidate,
// nothing is looked at.
fn decide_word_of(lists: &Lists, k: usize, candidates: u64) -> u64
    requires { Readied lists.now × (k < triangles lists.now.first.numbers.now * 16) × MayMeet (nine (k / 16) lists.now.first.numbers.now) lists.now.second.numbers.now (first_of k) (span (triangles lists.now.second.numbers.now) (first_of k)) candidates }
    ensures { Verdicts (nine (k / 16) lists.now.first.numbers.now) lists.now.second.numbers.now (first_of k) (span (triangles lists.now.second.numbers.now) (first_of k)) result }
{
    if candidates == 0 {
        return 0;
    }
    let pairs = Pairs {
        narrow: lists.narrow,
        first: Row {
            bed: lists.first,
            from: k / 16,
            step: 0,
        },
        second: Row {
            bed: lists.second,
            from: k % 16 * 64,
            step: 1,
        },
    };
    decide_word(&pairs, candidates)
}

// All words of two lists: each has its candidates, and gets their verdicts. Gives how many pairs meet. Counted: the words before k are verdicts, and those from k
// on candidates.
fn decide_words(lists: &Lists, words: &mut [u64]) -> u64
    requires { Readied lists.now × (triangles lists.now.first.numbers.now * 16 ≤ length words.old) × MayMeetBelow lists.now.first.numbers.now lists.now.second.numbers.now words.old (triangles lists.now.first.numbers.now * 16) }
    ensures { VerdictsBelow lists.now.first.numbers.now lists.now.second.numbers.now words.new (triangles lists.now.first.numbers.now * 16) × (result ≡ ones_below (triangles lists.now.second.numbers.now) words.new (triangles lists.now.first.numbers.now * 16)) }
{
    let mut found: u64 = 0;
    for k in 0..lists.first.numbers.len() / 9 * 16 {
        let word = decide_word_of(lists, k, words[k]);
        words[k] = word;
        found += u64::from(word.count_ones());
    }
    found
}

// Writes the candidates of two lists.
fn put_all_candidates(first: &[i32], second: &[i32], words: &mut [u64])
    requires { Sound first.now × Sound second.now × (triangles first.now * 16 ≤ length words.old) }
    ensures { MayMeetBelow first.now second.now words.new (triangles first.now * 16) }
{
    let mut first_room = [0i32; 6_144];
    let bounds = &mut first_room[..first.len() / 9 * 6];
    put_boxes(bounds, first);
    let mut second_room = [0i32; 6_144];
    let boxes = &mut second_room[..second.len() / 9 * 6];
    put_boxes(boxes, second);
    put_candidates(words, bounds, boxes);
}

// The verdicts on all pairs of two lists that passed the checks. Gives how many pairs meet. There are boxes, normals and planes for 1,024
// triangles a list.
pub fn decide_lists(first: &[i32], second: &[i32], words: &mut [u64]) -> u64
    requires { Sound first.now × Sound second.now × (triangles first.now * 16 ≤ length words.old) }
    ensures { VerdictsBelow first.now second.now words.new (triangles first.now * 16) × (result ≡ ones_below (triangles second.now) words.new (triangles first.now * 16)) }
{
    put_all_candidates(first, second, words);
    let narrow = is_narrow(first) & is_narrow(second);
    let mut normals = [0i64; 3_072];
    put_normals(&mut normals, first);
    let mut others = [0i64; 3_072];
    put_normals(&mut others, second);
    let mut planes = [0.0f64; 3_072];
    let mut rough = [0.0f64; 3_072];
    if !narrow {
        put_planes(&mut planes, first);
        put_planes(&mut rough, second);
    }
    let lists = Lists {
        narrow,
        first: Bed {
            numbers: first,
            normals: &normals,
            planes: &planes,
        },
        second: Bed {
            numbers: second,
            normals: &others,
            planes: &rough,
        },
    };
    decide_words(&lists, words)
}

ghost use Rattle.std.specs.Prelude.{length, ◌^◌, ◌<◌};

use crate::line::{Line, numbers};
use mcal_base::{Answer, Move, Routine};
use word_shapes::{PriorityQueue, PutPart, TakePart, TripleBuffer};

/// The order that the tables play with; entry 12 has rank 3, the other even ones 1 and the odd ones 2.
const ORDER: PriorityQueue = PriorityQueue { at: 2 };

const RANKS: [u32; 16] = [1, 2, 1, 2, 1, 2, 1, 2, 1, 2, 1, 2, 3, 2, 1, 2];

/// The three banks.
const BANKS: TripleBuffer = TripleBuffer {
    banks: 6,
    control: 15,
    len: 3,
};

/// What a routine that gives nothing is said to give, and one that doesn't end or does more than load and store.
const NOTHING: u32 = 1_000;

const WRONG: u32 = 1_001;

/// Does a move on the words, and tells what it gives; none where it is neither a load nor a store of one of them.
fn acted(words: &mut [u32], made: Move) -> Option<u32> {
    match made {
        Move::Load(word) => words.get(word as usize).copied(),
        Move::Store(word, value) => stored(words, word as usize, value),
        _ => None,
    }
}

/// Stores to a word, and gives 0; none where there is no such word.
fn stored(words: &mut [u32], word: usize, value: u32) -> Option<u32> {
    if word >= words.len() {
        return None;
    }
    words[word] = value;
    Some(0)
}

/// The number that an answer has.
fn number_of(answer: &Answer) -> u32 {
    match answer.words.as_slice() {
        [] => NOTHING,
        [number] => *number,
        _ => WRONG,
    }
}

/// Runs a routine to its end over the words.
fn play<R: Routine + Drop>(routine: R, words: &mut [u32]) -> u32 {
    let mut routine = routine;
    for _ in 0..6 {
        let Some(value) = acted(words, routine.next()) else {
            return WRONG;
        };
        let taken = routine.took(value);
        if taken.event.is_some() {
            return WRONG;
        }
        if let Some(answer) = &taken.ended {
            return number_of(answer);
        }
    }
    WRONG
}

/// Whether the order has so many entries, and this one waits or doesn't.
fn stands(words: &[u32], count: u32, entry: u32, waits: u32) -> bool {
    words.len() > 4 && words[4] % 32 == count && ((words[4] / 32) >> (entry % 16)) % 2 == waits
}

/// Whether the order does as a word with its numbers says: an entry is added, is the choice that ends the waiting, or
/// the one that changes nothing, waits again, or is taken out.
fn orders(words: &mut [u32], word: &str, numbers: [u32; 4]) -> bool {
    let entry = numbers[0];
    match word {
        "add" => play(ORDER.add(entry % 16), words) == NOTHING,
        "next" => play(ORDER.next(RANKS), words) == entry,
        "front" => play(ORDER.front(RANKS), words) == entry,
        "again" => play(ORDER.again(entry % 16), words) == NOTHING,
        "out" => play(ORDER.drop(entry % 16), words) == NOTHING,
        "stands" => stands(words, entry, numbers[1], numbers[2]),
        _ => false,
    }
}

/// Whether the words do as a word with its numbers says: a bank is chosen, its word at an index becomes or is this, it
/// becomes the newest one, the newest one is pinned, and the pin ends; else what the order does.
fn follows(words: &mut [u32], word: &str, numbers: [u32; 4]) -> bool {
    let [bank, index, value, _] = numbers;
    match word {
        "choose" => play(BANKS.put(PutPart::Choose), words) == bank,
        "fill" => play(BANKS.put(PutPart::Fill(bank % 3, index % 3, value)), words) == NOTHING,
        "commit" => play(BANKS.put(PutPart::Commit(bank % 3)), words) == NOTHING,
        "pin" => play(BANKS.take(TakePart::Pin), words) == bank,
        "word" => play(BANKS.take(TakePart::Word(bank % 3, index % 3)), words) == value,
        "release" => play(BANKS.take(TakePart::Release), words) == NOTHING,
        _ => orders(words, word, numbers),
    }
}

/// The number of the first line that the words don't follow, from 1, and 0 where they follow all.
pub fn first_wrong(lines: &[Line<'_>]) -> usize
    requires { length lines.now < 2 ^ 20 }
{
    let mut words = [0; 16];
    for (place, line) in lines.iter().enumerate() {
        match line {
            Line::Word(word, behind) if follows(&mut words, word, numbers(behind)) => {}
            _ => return place + 1,
        }
    }
    0
}

// Family 1 of the test: document 01's known states a to k, and known merges and known lists of one block of
// document 02. Each figure of the documents is compared with what the index says, beside the comparison with the
// model. The states are the rows of the file `stdin`, whose head says what each letter is for; k alone stands here.
#![tactic(auto)]

mod reading;

use intake::read_full;
use reading::{AT_LETTER, COLUMNS, DUE, Place, Row, take_in_line};
use std::io::Read;
use std::{array, io};
use test_array::array::words_before;
use test_array::outcomes::{Outcome, Refusal, Reply};
use test_array::words::{WORDS, set_word, word_at};
use test_compare::arrays::ArraysOf;
use test_compare::compare::make;
use test_compare::family::write_family;
use test_model::{Call, Change};

// One byte more than the rows have at most.
const TEXT_BYTES: usize = 16385;

type Text = [u8; TEXT_BYTES];

// The allowance of the states, and the words for D = 2, S = 4.
const ALLOWANCE: u32 = 10000;

const WORDS_4: usize = 520;

// The most words that a row lends to the index. It reads and stores single words among the first `WORDS` alone, as the
// model does.
const INDEX_WORDS: usize = 30000;

type Arrays = ArraysOf<INDEX_WORDS>;

// The words for D = 12, S = 4,096.
const WORDS_K: usize = 532480;

// Word 0 with G = D = 2, S = 4, and after a format with D = 12, S = 4,096.
const FIRST_WORD_DEEP: u64 = 0x5041474600040202;

const FIRST_WORD_K: u64 = 0x5041474610000C00;

// The keys that fill a window.
const WINDOW: usize = 16;

// The most records of a block.
const BLOCK_RECORDS: usize = 64;

// The number of a reply in the rows that is absent.
const ABSENT: u32 = 255;

// Sixteen keys: `first`, and on by `step`.
#[derive(Clone, Copy)]
struct Keys {
    first: u64,
    step: u64,
}

// Begins a case: both arrays empty, and this many words of them lent.
fn begin(arrays: &mut Arrays, length: usize) {
    arrays.index = [0; INDEX_WORDS];
    arrays.model = [0; WORDS];
    arrays.begin_case(length);
}

// The number of a reply in the rows: 0 for done, or the refusal's.
fn number_of(reply: Result<Reply, Refusal>) -> u32 {
    match reply {
        Ok(Reply::Absent) => ABSENT,
        Ok(_) => 0,
        Err(refusal) => refusal as u32,
    }
}

// A call with the document's reply and number of stores.
fn expect_call(arrays: &mut Arrays, call: Call, reply: u32, stores: u32) {
    let seen = arrays.compare(call);
    arrays.expect(number_of(seen.reply) == reply);
    arrays.expect(seen.stores == stores);
}

// Compares a word of the index's array with the document's.
fn expect_word(arrays: &mut Arrays, at: usize, word: u64) {
    let found = word_at(&arrays.index[..WORDS], at);
    arrays.expect(found == word);
}

// The sixteen keys.
fn all_of(keys: Keys) -> [u64; WINDOW] {
    array::from_fn(|number| keys
        .first
        .wrapping_add(keys.step.wrapping_mul(number as u64)))
}

// A key's value in a fill: ten times the key, as in state b.
fn value_for(key: u64) -> u64 {
    key % 65536 * 10
}

// A case with a format of D = 2, and puts of sixteen keys.
fn fill(arrays: &mut Arrays, segments: u32, keys: Keys) {
    begin(arrays, words_before(2, segments));
    let format = Change::Format {
        max_depth: 2,
        segments: u64::from(segments),
    };
    arrays.compare(format.allowed(ALLOWANCE));
    for key in all_of(keys) {
        let value = value_for(key);
        arrays.compare(Change::Put { key, value }.allowed(ALLOWANCE));
    }
}

// Compares where the keys of a fill lie: in sixteen slots on from `slot` of segment 0, slot 0 following 63.
fn expect_filled(arrays: &mut Arrays, slot: usize, keys: Keys) {
    let words = &arrays.index;
    let is_filled = (slot % 64..)
        .zip(all_of(keys))
        .all(|(at, key)| word_at(words, 8 + 2 * (at % 64)) == key);
    arrays.expect(is_filled);
}

// Stores a word to both arrays.
fn set_both(arrays: &mut Arrays, at: usize, word: u64) {
    set_word(&mut arrays.index[..WORDS], at, word);
    set_word(&mut arrays.model, at, word);
}

// Begins a case with the directory of depth 2 and four segments.
fn begin_deep(arrays: &mut Arrays) {
    begin(arrays, WORDS_4);
    set_word(&mut arrays.index, 0, FIRST_WORD_DEEP);
    for segment in 0..4 {
        set_word(&mut arrays.index, 4 + segment, 0x200000000 + segment as u64);
    }
    arrays.copy_to_model();
}

// A list of one block that is done, with its number of records and the next index, 0 behind the last.
fn expect_block(arrays: &mut Arrays, call: Call, records: u64, next: u64) {
    let seen = arrays.compare(call);
    arrays.expect(number_of(seen.reply) == 0 && seen.stores == 0);
    let (found, follows) = match seen.reply {
        Ok(Reply::Listed { records, next }) => (records, next.unwrap_or(0)),
        _ => (0, 0),
    };
    arrays.expect(found == records && follows == next);
}

// Compares a record of the list array.
fn expect_record(arrays: &mut Arrays, number: usize, key: u64, value: u64) {
    let found = arrays.listed.chunks_exact(2).nth(number % BLOCK_RECORDS);
    let is_right = found.is_some_and(|pair| pair == [key, value].as_slice());
    arrays.expect(is_right);
}

// A number of 32 bits, as an allowance or a reply.
fn half_of(number: u64) -> u32 {
    (number % 4294967296) as u32
}

// The call of a letter, with its numbers. Any other capital letter is a list, which no row asks for: the table would
// count it.
fn call_of(letter: u8, first: u64, second: u64, third: u64) -> Call {
    match letter {
        b'F' => Change::Format {
            max_depth: first,
            segments: second,
        }
        .allowed(half_of(third)),
        b'G' => Call::Get { key: first },
        b'P' => Change::Put {
            key: first,
            value: second,
        }
        .allowed(half_of(third)),
        b'R' => Change::Remove { key: first }.allowed(half_of(second)),
        b'J' => Change::Merge { key: first }.allowed(half_of(second)),
        b'M' => Change::Mend.allowed(half_of(first)),
        b'B' => Call::ListBlock {
            index: first,
            room: second as usize,
        },
        _ => Call::List { room: 0 },
    }
}

// Begins a case, changes the arrays, or compares what stands in them. A letter that is for nothing is a
// difference; 0 is that of a comment.
fn take_other(arrays: &mut Arrays, letter: u8, first: u64, second: u64, third: u64) {
    let keys = Keys {
        first: second,
        step: third,
    };
    match letter {
        b'c' => begin(arrays, first as usize),
        b'f' => fill(arrays, half_of(first), keys),
        b'd' => begin_deep(arrays),
        b'i' => set_both(arrays, first as usize, second),
        b's' => arrays.save(),
        b'u' => arrays.take_saved(),
        b'w' => expect_word(arrays, first as usize, second),
        b'r' => expect_record(arrays, first as usize, second, third),
        b't' => expect_filled(arrays, first as usize, keys),
        _ => arrays.expect(letter == 0),
    }
}

// Does what a row asks for.
fn take_row(arrays: &mut Arrays, row: &Row) {
    let letter = (row[0] % 256) as u8;
    let first = row[1];
    let second = row[2];
    let third = row[3];
    let due = row[DUE];
    let next_due = row[DUE + 1];
    match letter {
        b'A'..=b'Z' => {
            let call = call_of(letter, first, second, third);
            expect_call(arrays, call, half_of(due), half_of(next_due));
        }
        b'b' => expect_block(arrays, call_of(b'B', first, second, 0), due, next_due),
        b'p' => {
            arrays.compare(call_of(b'P', first, second, third));
        }
        _ => take_other(arrays, letter, first, second, third),
    }
}

// Takes a byte of the text: a line feed ends a row.
fn take_byte(arrays: &mut Arrays, row: &mut Row, place: Place, byte: u8) -> Place {
    if byte == b'\n' {
        take_row(arrays, row);
        *row = [0u64; COLUMNS];
        return AT_LETTER;
    }
    take_in_line(row, place, byte)
}

// Goes through all rows of the text, byte by byte and not by `lines` and `parse`: what a row does that is not of the form
// may not change.
fn take_rows(arrays: &mut Arrays, text: &Text) {
    let mut row = [0u64; COLUMNS];
    let mut place = AT_LETTER;
    for byte in text {
        place = take_byte(arrays, &mut row, place, *byte);
    }
}

// Whether word 0 is this one, and every other word 0.
fn is_formatted(words: &[u64], first: u64) -> bool {
    words.split_first().is_some_and(|(word, others)| *word == first
        && others.iter().all(|other| *other == 0))
}

// A format of the largest shape on so many words, with the document's outcome, and the word 0 that it leaves. All words
// are compared, the one that may not be lent too.
fn format_largest(
    arrays: &mut Arrays,
    words: &mut [u64; WORDS_K],
    length: usize,
    due: Outcome,
    first: u64,
) {
    arrays.begin_case(0);
    let format = Change::Format {
        max_depth: 12,
        segments: 4096,
    };
    let call = format.allowed(ALLOWANCE);
    let answer = make(&mut words[..length.min(WORDS_K)], call);
    arrays.judge(call, answer, due, is_formatted(words, first));
}

// k: the largest shape, on a word less and on all. Two such arrays pass the stack, so this state goes without the
// model: the document's outcome stands in its place, and a scan compares the words.
fn state_k(arrays: &mut Arrays, words: &mut [u64; WORDS_K]) {
    let too_short = Outcome {
        reply: Err(Refusal::TooShort),
        stores: 0,
    };
    format_largest(arrays, words, WORDS_K - 1, too_short, 0);
    let done = Outcome {
        reply: Ok(Reply::Done),
        stores: 67,
    };
    format_largest(arrays, words, WORDS_K, done, FIRST_WORD_K);
}

// The states of the text, which must have ended within the array, and k.
fn test_known(arrays: &mut Arrays, text: &Text, size: usize) {
    arrays.expect(size < TEXT_BYTES);
    take_rows(arrays, text);
    let mut words = [0u64; WORDS_K];
    state_k(arrays, &mut words);
}

fn main(rt: HostRuntime) -> io::Result<()> {
    let mut text = [0u8; TEXT_BYTES];
    let size = read_full(&mut rt.reader(), &mut text)?;
    let mut arrays = Arrays::new();
    test_known(&mut arrays, &text, size);
    write_family(&rt, "1 known states", &arrays.tally)
}

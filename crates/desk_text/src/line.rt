// A line of a script: the call that it is, if it is one.
ghost use Rattle.std.specs.Prelude.{◌≡◌};
ghost use Rattle.stores.specs.Options.{option_of};
ghost use Rattle.text.specs.Left.{parts_left};
ghost use Rattle.desk_text.specs.Line.{call_of, call_with, line_said};
ghost use Rattle.desk_text.specs.Fields.{NumberTaken, AllowanceOf, CallTaken, fields_call};

use crate::fields::{Fields, Numbers, take_letter};
use index_rules::Call;
use text::number::read_number;
use text::parts::Parts;

// A call, with the letter that its answer begins with.
#[derive(Clone, Copy)]
pub struct Called {
    pub letter: u8,
    pub call: Call,
}

// Takes the next field, which is to be a number.
fn number(fields: &mut Parts) -> Option<u64>
    ensures { NumberTaken (parts_left fields.old) (option_of result) (parts_left fields.new) }
{
    read_number(fields.next()?)
}

// A number as an allowance, which is below 2^32.
fn to_allowance(number: u64) -> Option<u32>
    ensures { AllowanceOf number (option_of result) }
{
    u32::try_from(number).ok()
}

// Takes as many numbers as the letter's call has, and makes the call of them. No number is read for another letter.
fn read_call(letter: u8, fields: &mut Parts) -> Option<Called>
    ensures { CallTaken letter (parts_left fields.old) (line_said result) (parts_left fields.new) }
{
    match letter {
        b'F' | b'P' => {
            let first = number(fields)?;
            let second = number(fields)?;
            let allowance = number(fields)?;
            call_of(letter, &[first, second, allowance])
        }
        b'R' => {
            let key = number(fields)?;
            let allowance = number(fields)?;
            call_of(letter, &[key, allowance])
        }
        b'G' | b'M' => {
            let only = number(fields)?;
            call_of(letter, &[only])
        }
        b'L' => call_of(letter, &[]),
        _ => None,
    }
}

// Reads a line without its line feed: a letter, and numbers each behind a tab.
pub fn read_line(line: &[u8]) -> Option<Called>
    ensures { line_said result ≡ call_of line.now }
{
    let (letter, mut fields) = take_letter(line)?;
    let called = read_call(letter, &mut fields)?;
    match fields.next() {
        None => Some(called),
        Some(_) => None,
    }
}

// The call of a letter with these numbers, however many they are.
pub fn call_of(letter: u8, numbers: &[u64]) -> Option<Called>
    ensures { line_said result ≡ call_with letter numbers.now }
{
    let call = match (letter, numbers) {
        (b'F', &[depth, segments, allowance]) => Call::Format {
            depth,
            segments,
            allowance: to_allowance(allowance)?,
        },
        (b'P', &[key, value, allowance]) => Call::Put {
            key,
            value,
            allowance: to_allowance(allowance)?,
        },
        (b'R', &[key, allowance]) => Call::Remove {
            key,
            allowance: to_allowance(allowance)?,
        },
        (b'G', &[key]) => Call::Get { key },
        (b'M', &[limit]) => Call::Mend {
            allowance: to_allowance(limit)?,
        },
        (b'L', []) => Call::List,
        _ => return None,
    };
    Some(Called { letter, call })
}

impl Fields {
    // The call of the letter with its numbers.
    pub fn call(self) -> Option<Called>
        ensures { line_said result ≡ fields_call (Some self) }
    {
        match self.numbers {
            Numbers::Empty => call_of(self.letter, &[]),
            Numbers::One(x) => call_of(self.letter, &[x]),
            Numbers::Two(x, y) => call_of(self.letter, &[x, y]),
            Numbers::Three(x, y, z) => call_of(self.letter, &[x, y, z]),
        }
    }
}

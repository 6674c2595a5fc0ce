// The fields of a line as a value: a letter, and up to three numbers, each behind a tab.
ghost use Rattle.std.specs.Prelude.{◌≡◌};
ghost use Rattle.text.specs.Left.{parts_left};
ghost use Rattle.desk_text.specs.Line.{call_of};
ghost use Rattle.desk_text.specs.Fields.{LetterTaken, NumbersRead, fields_call};

use text::TAB;
use text::number::read_number;
use text::parts::Parts;

// The most numbers of a call: those of `Numbers::Three`.
pub const MOST_NUMBERS: usize = 3;

// The numbers of a call: three at most.
#[derive(Clone, Copy)]
pub enum Numbers {
    Empty,
    One(u64),
    Two(u64, u64),
    Three(u64, u64, u64),
}

// A letter and its numbers, as a reader or a writer of lines has them.
#[derive(Clone, Copy)]
pub struct Fields {
    pub letter: u8,
    pub numbers: Numbers,
}

// Takes the letter of a line, and leaves the fields behind it. The two first bytes tell whether there is one: a line of
// any length is refused by them.
pub(crate) fn take_letter(line: &[u8]) -> Option<(u8, Parts)>
    ensures { LetterTaken line.now result }
{
    if 1 < line.len() && line[1] != TAB {
        return None;
    }
    let mut fields = Parts::of(line, TAB);
    let first = fields.next()?;
    if first.len() != 1 {
        return None;
    }
    Some((first[0], fields))
}

// Reads fields as numbers, where there are three at most.
fn read_numbers(mut fields: Parts) -> Option<Numbers>
    ensures { NumbersRead (parts_left fields.entry) result }
{
    let Some(field) = fields.next() else {
        return Some(Numbers::Empty);
    };
    let first = read_number(field)?;
    let Some(field) = fields.next() else {
        return Some(Numbers::One(first));
    };
    let second = read_number(field)?;
    let Some(field) = fields.next() else {
        return Some(Numbers::Two(first, second));
    };
    let third = read_number(field)?;
    match fields.next() {
        None => Some(Numbers::Three(first, second, third)),
        Some(_) => None,
    }
}

// Reads the fields of a line, which is lent without its line feed.
pub fn read_fields(line: &[u8]) -> Option<Fields>
    ensures { fields_call result ≡ call_of line.now }
{
    let (letter, fields) = take_letter(line)?;
    let numbers = read_numbers(fields)?;
    Some(Fields { letter, numbers })
}

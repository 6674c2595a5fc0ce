// A script: its lines, one after the other.
ghost use Rattle.std.specs.Prelude.{◌≡◌};
ghost use Rattle.std.specs.Iterator.{YieldsFirstRef, item_count};
ghost use Rattle.text.specs.Parts.{lines_of};
ghost use Rattle.text.specs.Left.{lines_left};
ghost use Rattle.text.specs.Script.{NextLine};

use crate::LINE_FEED;
use crate::parts::Parts;

// The lines of a script that are still to come. Empty lines are skipped.
#[derive(Clone, Copy)]
pub struct Lines<'a> {
    parts: Parts<'a>,
}

impl<'a> Lines<'a> {
    // All lines of a script.
    pub fn of(script: &'a [u8]) -> Lines<'a>
        ensures { lines_left result ≡ lines_of script.now }
    {
        Lines {
            parts: Parts::of(script, LINE_FEED),
        }
    }
}

impl<'a> Iterator for Lines<'a> {
    type Item = &'a [u8];

    ghost next_gives = { YieldsFirstRef lines_left };

    ghost remaining = { item_count lines_left };

    fn next(&mut self) -> Option<&'a [u8]> {
        self.parts.find(|line| !line.is_empty())
    }
}

// Where a line stands: from `start` to the byte before `end`.
#[derive(Clone, Copy)]
pub struct Span {
    pub start: usize,
    pub end: usize,
}

// Finds the next line of the script from position `from` on, past empty lines. `Lines` doesn't go by it: it
// keeps what is left of the script alone, and gives the bytes of a line, not where it stands.
pub fn next_line(script: &[u8], from: usize) -> Span
    ensures { NextLine script.now from result.start result.end }
{
    let all = script.len();
    if all < from {
        return Span {
            start: all,
            end: all,
        };
    }
    let Some(skipped) = script[from..].iter().position(|byte| *byte != LINE_FEED) else {
        return Span {
            start: all,
            end: all,
        };
    };
    let start = from + skipped;
    let Some(length) = script[start..].iter().position(|byte| *byte == LINE_FEED) else {
        return Span { start, end: all };
    };
    let end = start + length;
    Span { start, end }
}

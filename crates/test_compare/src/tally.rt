// The counts of a test program, and their table. Every number in it was counted.
use crate::kind::{KINDS, Kind};
use crate::lines::{LINE_COUNT, LINES, Line};
use std::io;
use std::io::Write;
use test_array::outcomes::{Outcome, Refusal};

// The width of a name and that of a number.
const NAME_WIDTH: usize = 14;

const WIDTH: usize = 12;

// The counts: cases, calls and so on; and how often each reply came, by lines, with a number for each call.
#[derive(Clone, Copy, Default)]
pub struct Tally {
    cases: u64,
    calls: u64,
    cut_calls: u64,
    stores: u64,
    lookups: u64,
    differences: u64,
    replies: [[u64; KINDS]; LINE_COUNT],
}

// Writes a name and the numbers of its line, each at the right of its column.
fn write_line<W: Write>(out: &mut W, name: &str, numbers: &[u64]) -> io::Result<()> {
    write!(out, "{name:<NAME_WIDTH$}")?;
    for number in numbers {
        write!(out, "{number:>WIDTH$}")?;
    }
    writeln!(out)
}

impl Tally {
    // Counts a case.
    pub(crate) fn count_case(&mut self) {
        self.cases = self.cases.saturating_add(1);
    }

    // Counts lookups.
    pub fn count_lookups(&mut self, lookups: usize) {
        self.lookups = self.lookups.saturating_add(lookups as u64);
    }

    // Counts a comparison: a difference if it failed.
    pub(crate) fn expect(&mut self, holds: bool) {
        if !holds {
            self.differences = self.differences.saturating_add(1);
        }
    }

    // How many comparisons failed.
    #[cfg(test)]
    pub(crate) fn differences(&self) -> u64 {
        self.differences
    }

    // Counts a call of the index, its stores and its reply.
    pub(crate) fn count_call(&mut self, kind: Kind, said: Outcome) {
        self.calls = self.calls.saturating_add(1);
        self.stores = self.stores.saturating_add(said.stores as u64);
        if said.reply == Err(Refusal::CutOff) {
            self.cut_calls = self.cut_calls.saturating_add(1);
        }
        self.count_reply(kind, Line::from(said.reply));
    }

    // Counts a reply of a call.
    fn count_reply(&mut self, kind: Kind, line: Line) {
        for ((counted, _), counts) in LINES.iter().zip(self.replies.iter_mut()) {
            if *counted == line {
                let count = &mut counts[kind as usize];
                *count = count.saturating_add(1);
            }
        }
    }

    // Writes the whole table of a family.
    pub(crate) fn write<W: Write>(&self, out: &mut W, family: &str) -> io::Result<()> {
        writeln!(
            out,
            "family               cases       calls   cut calls      stores     lookups differences",
        )?;
        let firsts = [
            self.cases,
            self.calls,
            self.cut_calls,
            self.stores,
            self.lookups,
            self.differences,
        ];
        write_line(out, family, &firsts)?;
        writeln!(
            out,
            "\nreply               format         get         put      remove       merge        mend        list  list block",
        )?;
        for ((_, name), counts) in LINES.iter().zip(&self.replies) {
            write_line(out, name, counts)?;
        }
        Ok(())
    }
}

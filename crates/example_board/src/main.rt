// The month board at work: jobs of two years are set, one year is printed, a job is removed, and the
// year is printed again.
#![tactic(auto)]

use replies::{Refusal, Reply};
use std::io;
use std::io::{BufWriter, Write};

// The board's array: an index of D = 4 and S = 16.
const DEPTH: u64 = 4;

const SEGMENTS: u64 = 16;

const WORDS: usize = 2080;

// Room for the lines of a year with few jobs.
const ROOM: usize = 256;

// A job of planning's list, with its pages.
#[derive(Clone, Copy)]
struct Job {
    year: u64,
    month: u64,
    number: u64,
    pages: u64,
}

// Planning's list, which has no order.
const JOBS: [Job; 5] = [
    Job {
        year: 2026,
        month: 3,
        number: 12,
        pages: 1180,
    },
    Job {
        year: 2026,
        month: 1,
        number: 4095,
        pages: 96,
    },
    Job {
        year: 2025,
        month: 12,
        number: 7,
        pages: 640,
    },
    Job {
        year: 2026,
        month: 1,
        number: 9,
        pages: 0,
    },
    Job {
        year: 2026,
        month: 11,
        number: 2,
        pages: 75,
    },
];

// Writes a text and the number of a refusal.
fn report<W: Write>(out: &mut W, text: &str, refusal: Refusal) -> io::Result<()> {
    let number = u32::from(refusal);
    writeln!(out, "{text}{number}")
}

// Sets a job, and says so where it is refused.
fn enter<W: Write>(out: &mut W, words: &mut [u64], job: Job) -> io::Result<()> {
    let answer = board::set(words, job.year, job.month, job.number, job.pages, u32::MAX);
    match answer.reply {
        Err(refusal) => report(out, "set refused: ", refusal),
        Ok(_) => Ok(()),
    }
}

// Prints a year behind a line with its number, or says why there are no lines.
fn show<W: Write>(out: &mut W, words: &[u64], year: u64) -> io::Result<()> {
    let mut buffer = [0u8; ROOM];
    let answer = board::print(words, year, &mut buffer);
    writeln!(out, "year {year}")?;
    match answer.reply {
        Ok(Reply::Value(bytes)) => out.write_all(&buffer[..bytes as usize]),
        Err(refusal) => report(out, "refused: ", refusal),
        Ok(_) => Ok(()),
    }
}

// Keeps a board in the array and prints it.
fn keep_board<W: Write>(out: &mut W, words: &mut [u64]) -> io::Result<()> {
    index::format(words, DEPTH, SEGMENTS, u32::MAX);
    for job in JOBS {
        enter(out, words, job)?;
    }
    show(out, words, 2026)?;
    board::remove(words, 2026, 3, 12, u32::MAX);
    show(out, words, 2026)?;
    show(out, words, 2025)?;
    show(out, words, 10000)
}

// The words are all 0 before.
fn main(rt: HostRuntime) -> io::Result<()> {
    let mut words = [0u64; WORDS];
    let mut out = BufWriter::new(rt.alloc(), io::writer(&rt))?;
    keep_board(&mut out, &mut words)?;
    out.flush()
}

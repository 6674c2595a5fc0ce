// Runs scripts of the desk against stored outputs. The arguments are file names in pairs: a script,
// and the output that it must give.
#![tactic(auto)]

ghost use Rattle.std.specs.Prelude.{◌<◌, length, IfSome};

use desk_run::OUTPUT_BYTES;
use intake::read_full;
use std::fs::File;
use std::io::{BufWriter, Write};
use std::rt::Files;
use std::{env, io};

// A file of so many bytes counts as not read.
const SCRIPT_BYTES: usize = 32768;

const EXPECTED_BYTES: usize = 131072;

// Whether the script gives the expected output and no more.
fn gives(script: &[u8], expected: &[u8]) -> bool {
    let mut out = [0u8; OUTPUT_BYTES];
    let written = desk_run::run(script, &mut out);
    &out[..written] == expected
}

// Runs the script, and writes the rest of its line.
fn test_script<W: Write>(out: &mut W, script: &[u8], expected: &[u8]) -> io::Result<bool> {
    let is_same = gives(script, expected);
    let verdict = if is_same { "same" } else { "DIFFERS" };
    let script_bytes = script.len();
    let expected_bytes = expected.len();
    writeln!(out, "\t{script_bytes}\t{expected_bytes}\t{verdict}")?;
    Ok(is_same)
}

// Reads the file that an argument names into the buffer, and answers its bytes, if it can be read and has fewer than the
// buffer. An argument that is missing names none.
fn read_file<F: Files>(files: &F, name: Option<&String>, buffer: &mut [u8]) -> Option<usize>
    ensures within { IfSome result (λ n. n < length buffer.new) }
{
    let mut file = File::open(files, name?.as_str()).ok()?;
    let size = read_full(&mut file, buffer).ok()?;
    (size < buffer.len()).then_some(size)
}

// Tests the script that the first of two arguments names against the output that the second names, and writes a
// line.
fn test_pair<F: Files, W: Write>(files: &F, out: &mut W, names: &[String]) -> io::Result<bool> {
    let script_name = names.first();
    if let Some(name) = script_name {
        write!(out, "{name}")?;
    }
    let mut script = [0u8; SCRIPT_BYTES];
    let mut expected = [0u8; EXPECTED_BYTES];
    let script_size = read_file(files, script_name, &mut script);
    let expected_size = read_file(files, names.get(1), &mut expected);
    match (script_size, expected_size) {
        (Some(size), Some(expected_size)) => test_script(
            out,
            &script[..size],
            &expected[..expected_size],
        ),
        _ => {
            writeln!(out, "\tnot read")?;
            Ok(false)
        }
    }
}

// Tests each pair of arguments, and writes how many there were and how many gave the expected output.
fn test_pairs<F: Files, W: Write>(files: &F, out: &mut W, names: &[String]) -> io::Result<()> {
    let mut scripts: u64 = 0;
    let mut same: u64 = 0;
    for pair in names.chunks(2) {
        scripts = scripts.saturating_add(1);
        if test_pair(files, out, pair)? {
            same = same.saturating_add(1);
        }
    }
    writeln!(out, "{scripts} scripts, {same} the same")
}

// The first argument is the program's name. A script with no output named counts as a pair: its
// output is not read.
fn main(rt: HostRuntime) -> io::Result<()> {
    let names: Vec<String> = env::args(&rt)?.skip(1).collect(rt.alloc())?;
    let mut out = BufWriter::new(rt.alloc(), io::writer(&rt))?;
    test_pairs(&rt, &mut out, &names)?;
    out.flush()
}

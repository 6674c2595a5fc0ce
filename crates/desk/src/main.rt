// The desk program.
#![tactic(auto)]

ghost use Rattle.std.specs.Prelude.{IfSome, OnOk};
ghost use Rattle.std.specs.Io.KnownBytes.{Appends};
ghost use Rattle.desk_run.specs.Run.{desk_output};

use desk_run::{MOST_BYTES, OUTPUT_BYTES};
use intake::read_full;
use std::io;
use std::io::{Read, Write};

// One byte more than a script may have: with it the script is known to be too long.
const TEXT_BYTES: usize = MOST_BYTES + 1;

// Reads the script, runs it, and writes what it gives. Where the input's bytes are known, that is the desk's output for
// all of them, though of a script that is too long only the first bytes are read.
fn run_script<R: Read, W: Write>(input: &mut R, output: &mut W) -> io::Result<()>
    ensures { OnOk result (IfSome (R.remaining input.old) (λ script. Appends (W.contents output.old) (W.contents output.new) (desk_output script))) }
{
    let mut text = [0u8; TEXT_BYTES];
    let mut out = [0u8; OUTPUT_BYTES];
    let size = read_full(input, &mut text)?;
    let written = desk_run::run(&text[..size], &mut out);
    output.write_all(&out[..written])
}

// The script is standard input.
fn main(rt: HostRuntime) -> io::Result<()> {
    run_script(&mut rt.reader(), &mut io::writer(&rt))
}

// A test program: a family of cases, and then its table.
use crate::arrays::Arrays;
use crate::tally::Tally;
use std::io;
use std::io::{BufWriter, Write};

// Writes the table of a family.
pub fn write_family<R: Print + Alloc>(rt: &R, family: &str, tally: &Tally) -> io::Result<()> {
    let mut out = BufWriter::new(rt.alloc(), io::writer(rt))?;
    tally.write(&mut out, family)?;
    out.flush()
}

// Runs a family on arrays of 0, and writes its table.
pub fn run_family<R: Print + Alloc, F: FnOnce(&mut Arrays)>(
    rt: &R,
    family: &str,
    run: F,
) -> io::Result<()>
    requires { F.IsAlwaysCallable run }
{
    let mut arrays = Arrays::new();
    run(&mut arrays);
    write_family(rt, family, &arrays.tally)
}

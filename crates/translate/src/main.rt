// The program translate: reads a table from standard input and writes the translated table to standard output, or the `refused` line.
// docs/RULES.md, "What the programs print". It only reads and writes; the bytes are made by lines::translate.
#![tactic(auto)]

ghost use Rattle.std.specs.Prelude.{◌≡◌, OnOk};
ghost use Rattle.translate.specs.Writes.{Writes};

use std::io;
use streams::Failed;

// Reads a table and writes what is made of it. `run` of verdict makes the same calls. One function over a closure was tried: it has a `requires` over
// all that the closure may answer, and is longer than the two.
fn run<R: io::Read, W: io::Write, E: io::Write>(
    input: &mut R,
    output: &mut W,
    errors: &mut E,
    table: &mut [u8; 4449],
    out: &mut [u8; 65536],
) -> Result<(), Failed>
    ensures writes { OnOk result (Writes (R.remaining input.old) (R.remaining input.new) (W.contents output.old) (W.contents output.new)
        out.old) }
    ensures unread { (u : _) → result ≡ Err (Failed.Reading u) → output.new ≡ output.old }
    ensures quiet { OnOk result (errors.new ≡ errors.old) }
{
    let count = streams::read_table(input, errors, table, b"translate: standard input")?;
    let end = lines::translate(&table[..count], out);
    streams::write_all(output, errors, &out[..end], b"translate: standard output")?;
    Ok(())
}

fn main(rt: HostRuntime) {
    let mut table = [0u8; 4449];
    let mut out = [0u8; 65536];
    let _ = run(
        &mut rt.stdin(),
        &mut rt.stdout(),
        &mut rt.stderr(),
        &mut table,
        &mut out,
    );
}

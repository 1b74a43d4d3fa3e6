// The program verdict: reads a table from standard input and prints its quote and its least lasso. docs/RULES.md, "What the programs print". It only
// reads and writes; the text is made by lines::verdict.
#![tactic(auto)]

ghost use Rattle.std.specs.Prelude.{◌≡◌, OnOk};
ghost use Rattle.verdict.specs.Prints.{Prints};

use std::io;
use streams::Failed;

// Reads a table and writes what is made of it. `run` of translate makes the same calls. One function over a closure was tried: it has a `requires`
// over all that the closure may answer, and is longer than the two.
fn run<R: io::Read, W: io::Write, E: io::Write>(
    input: &mut R,
    output: &mut W,
    errors: &mut E,
    table: &mut [u8; 4449],
    work: &mut [u32; 16384],
    report: &mut [u32; 8192],
    out: &mut [u8; 196608],
) -> Result<(), Failed>
    ensures prints { OnOk result (Prints (R.remaining input.old) (R.remaining input.new) (W.contents output.old) (W.contents output.new)
        work.old report.old out.old) }
    ensures unread { (u : _) → result ≡ Err (Failed.Reading u) → output.new ≡ output.old }
    ensures quiet { OnOk result (errors.new ≡ errors.old) }
{
    let count = streams::read_table(input, errors, table, b"verdict: standard input")?;
    let end = lines::verdict(&table[..count], work, report, out);
    streams::write_all(output, errors, &out[..end], b"verdict: standard output")?;
    Ok(())
}

fn main(rt: HostRuntime) {
    let mut table = [0u8; 4449];
    let mut work = [0u32; 16384];
    let mut report = [0u32; 8192];
    let mut out = [0u8; 196608];
    let _ = run(
        &mut rt.stdin(),
        &mut rt.stdout(),
        &mut rt.stderr(),
        &mut table,
        &mut work,
        &mut report,
        &mut out,
    );
}

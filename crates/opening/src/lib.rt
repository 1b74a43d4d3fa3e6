// Opening a table: down the refusal list in three stages, each over the one before it. docs/RULES.md, "The table file" and "Refusal list". The rules
// stand in the crate `table`.
#![tactic(auto)]

mod faults;

ghost use Rattle.std.specs.Prelude.{◌≡◌, ◌++◌};
ghost use Rattle.table.specs.Open.{count_lines, row_lines, opened_by, open_of, why_of};

use table::{Refusal, Table};

// Lines 1, 2, 3, 14 and 15: the header is of a client's table, and each of its counts is inside its range.
fn counted(bytes: &[u8]) -> Result<Table, Refusal>
    ensures { result ≡ opened_by bytes.now (count_lines bytes.now) }
{
    if bytes.len() < 28 {
        return Err(Refusal::TooShort);
    }
    // One kind is read (docs/RULES.md, "The table file"); an enum of one value would say no more than its number.
    if table::word(bytes, 0) != 1 {
        return Err(Refusal::WrongKind);
    }
    let t = Table {
        states: table::word(bytes, 4),
        edges: table::word(bytes, 8),
        sets: table::word(bytes, 12),
    };
    if faults::outside(t.states, 1, 64) {
        return Err(Refusal::WrongStates);
    }
    if faults::outside(t.edges, 1, 1024) {
        return Err(Refusal::WrongEdges);
    }
    if faults::outside(t.sets, 0, 4) {
        return Err(Refusal::WrongSets);
    }
    Ok(t)
}

// Then lines 4 and 5: the parts stand where they must, and so do the rows. Not inlined, like `open`: so the loops of lines 6 to 8 stand first in a
// function of their own, wherever the tests before them end (docs/SPEED.md, "Where a loop stands").
#[inline(never)]
fn laid_out(bytes: &[u8]) -> Result<Table, Refusal>
    ensures { result ≡ opened_by bytes.now (count_lines bytes.now ++ row_lines bytes.now) }
{
    let t = counted(bytes)?;
    if !faults::layout_fits(bytes, t) {
        return Err(Refusal::WrongLayout);
    }
    if let Some(i) = faults::wrong_row_start(bytes, t) {
        return Err(Refusal::WrongRowStart(i));
    }
    Ok(t)
}

// Accepts or refuses the bytes: then lines 6 to 8, what the rows and the marks hold.
#[inline(never)]
pub fn open(bytes: &[u8]) -> Result<Table, Refusal>
    ensures { result ≡ open_of bytes.now }
{
    let t = laid_out(bytes)?;
    if let Some(i) = faults::wrong_target(bytes, t) {
        return Err(Refusal::WrongTarget(i));
    }
    if let Some(s) = faults::empty_row(bytes, t) {
        return Err(Refusal::EmptyRow(s));
    }
    if let Some(s) = faults::wrong_mark(bytes, t) {
        return Err(Refusal::WrongMark(s));
    }
    Ok(t)
}

// The refusal of a table that is not accepted. Each entry calls this in the `else` of its `let .. else`, the form that docs/RULES.md, "Forms in the
// code", names for an entry: an `else` binds nothing.
pub fn why(answer: Result<Table, Refusal>) -> Refusal
    ensures { result ≡ why_of answer }
{
    match answer {
        Err(r) => r,
        // Not reached from an entry: there the accepted tables were taken before.
        Ok(_) => Refusal::TooShort,
    }
}

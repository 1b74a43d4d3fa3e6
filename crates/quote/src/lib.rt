// The quote sheet: what a table costs on a board, after recording. docs/RULES.md, "Quote sheet". The rules stand in specs/.
#![tactic(auto)]

mod boards;
mod members;

ghost use Rattle.std.specs.Prelude.{◌≡◌, ◌≤◌};
ghost use Rattle.table.specs.LaidOut.{LaidOut};
ghost use Rattle.quote.specs.Sizes.{edge_count};
ghost use Rattle.quote.specs.Quote.{sheet_of, quote_of};

pub use boards::Board;
use table::{Refusal, Table};

// S, E and the translated length of the recorded table, the members of fairness sets 0 to 3, and the board: 0 to 7, or none.
#[derive(Clone, Copy)]
pub struct Sheet {
    pub slots: usize,
    pub edges: usize,
    pub bytes: usize,
    pub members: [usize; 4],
    pub board: Option<usize>,
}

// A table that is accepted, and its sheet.
#[derive(Clone, Copy)]
pub struct Quoted {
    pub table: Table,
    pub sheet: Sheet,
}

// E, for n states, e edges and m sets.
pub fn edge_count(n: usize, e: usize, m: usize) -> usize
    requires { (n ≤ 64) × (e ≤ 1024) × (m ≤ 8) }
    ensures { result ≡ edge_count n e m }
{
    recorder::with_flag_and_bits(e, n + 2, m)
}

// The sheet of an accepted table. Bytes and counts go apart, here and in members.rt, as in opening/src/faults.rt.
fn sheet_of(bytes: &[u8], t: Table) -> Sheet
    requires { LaidOut bytes.now t }
    ensures { result ≡ sheet_of bytes.now t.states t.edges t.sets }
{
    let slots = recorder::slot_count(t.states, t.sets);
    let edges = edge_count(t.states, t.edges, t.sets);
    Sheet {
        slots,
        edges,
        bytes: 32 + 5 * slots + 4 * edges,
        members: [
            members::count(bytes, t, 0),
            members::count(bytes, t, 1),
            members::count(bytes, t, 2),
            members::count(bytes, t, 3),
        ],
        board: boards::first_with_room(slots, edges),
    }
}

// Prices a table.
pub fn quote(bytes: &[u8]) -> Result<Quoted, Refusal>
    ensures { result ≡ quote_of bytes.now }
{
    // Not by `?`: docs/RULES.md, "Forms in the code", names the form.
    let opened = opening::open(bytes);
    let Ok(table) = opened else {
        return Err(opening::why(opened));
    };
    Ok(Quoted {
        table,
        sheet: sheet_of(bytes, table),
    })
}

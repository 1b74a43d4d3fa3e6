// The tests of lines 3, 14 and 15, one for the three counts, and of lines 4 to 8, one function a line. docs/RULES.md, "Refusal list". Bytes and
// counts go apart: a struct of both is no plainer, since each clause has `self.entry.bytes.now` for `bytes.now`.
ghost use Rattle.std.specs.Prelude.{◌≡◌, ℕ, ◌+◌, ◌≤◌, ◌<◌, eqb, length};
ghost use Rattle.table.specs.First.{first_in};
ghost use Rattle.table.specs.Inside.{RowInside, MarkInside};
ghost use Rattle.table.specs.Layout.{states_of, edges_of};
ghost use Rattle.table.specs.Open.{outside, layout_fits, row_start_wrong, opens_row, target_wrong, row_empty, mark_wrong};
ghost use Rattle.table.specs.LaidOut.{LaidOut};
ghost use Rattle.table.specs.Rows.{RowsRight};

use table::Table;

// Lines 3, 14 and 15: the count x is outside low to high.
#[tactic(auto, unfolding(table::specs::Open::outside))]
pub(crate) fn outside(x: usize, low: usize, high: usize) -> bool
    ensures { result ≡ outside x low high }
{
    x < low || high < x
}

// Line 4: the offsets and the length are the computed ones.
#[tactic(auto, unfolding(table::specs::Open::layout_fits))]
pub(crate) fn layout_fits(bytes: &[u8], t: Table) -> bool
    requires in_bounds { 28 ≤ length bytes.now }
    requires states_value { (t.states ≡ states_of bytes.now) × (t.edges ≡ edges_of bytes.now) }
    requires states_bound { (t.states ≤ 64) × (t.edges ≤ 1024) }
    ensures { result ≡ layout_fits bytes.now }
{
    let targets = 28 + 4 * (t.states + 1);
    let marks = targets + 4 * t.edges;
    table::word(bytes, 16) == 28
        && table::word(bytes, 20) == targets
        && table::word(bytes, 24) == marks
        && bytes.len() == 32 + 5 * t.states + 4 * t.edges
}

// Line 5: the first row start that is wrong. The first one is not 0, one is below the one before or above e, or the last is not e.
pub(crate) fn wrong_row_start(bytes: &[u8], t: Table) -> Option<usize>
    requires { LaidOut bytes.now t }
    ensures { result ≡ first_in 0 (states_of bytes.now + 1) (row_start_wrong bytes.now) }
{
    let mut before = table::row_start(bytes, 0);
    if before != 0 {
        return Some(0);
    }
    for i in 1..t.states + 1 {
        let start = table::row_start(bytes, i);
        if start < before || t.edges < start {
            return Some(i);
        }
        before = start;
    }
    if before == t.edges {
        None
    } else {
        Some(t.states)
    }
}

// Line 6 in one row: the first of its targets, from index `from` up to, not including, `to`, that is n or more or not above the one before.
fn wrong_in_row(bytes: &[u8], t: Table, from: usize, to: usize) -> Option<usize>
    requires laid_out { LaidOut bytes.now t }
    requires from_le_to { (from ≤ to) × (to ≤ t.edges) }
    requires by_index { (i : ℕ) → from ≤ i → i < to → opens_row bytes.now i ≡ eqb i from }
    ensures { result ≡ first_in from to (target_wrong bytes.now) }
{
    let mut least = 0;
    for i in from..to {
        let x = table::target(bytes, t, i);
        if x < least || t.states <= x {
            return Some(i);
        }
        least = x + 1;
    }
    None
}

// Line 6: the first target that is wrong, row by row.
pub(crate) fn wrong_target(bytes: &[u8], t: Table) -> Option<usize>
    requires laid_out { LaidOut bytes.now t }
    requires rows_right { RowsRight bytes.now }
    ensures { result ≡ first_in 0 (edges_of bytes.now) (target_wrong bytes.now) }
{
    let mut from = 0;
    for s in 0..t.states {
        let to = table::row_start(bytes, s + 1);
        if let Some(i) = wrong_in_row(bytes, t, from, to) {
            return Some(i);
        }
        from = to;
    }
    None
}

// Line 7: the first state whose row is empty.
pub(crate) fn empty_row(bytes: &[u8], t: Table) -> Option<usize>
    requires { LaidOut bytes.now t }
    ensures { result ≡ first_in 0 (states_of bytes.now) (row_empty bytes.now) }
{
    (0..t.states).find(
        |&s|
            requires { RowInside bytes.now (s + 1) }
        { table::row_start(bytes, s) == table::row_start(bytes, s + 1) },
    )
}

// Line 8: the first state with a mark bit that must be clear: one past start, goal and the m sets.
pub(crate) fn wrong_mark(bytes: &[u8], t: Table) -> Option<usize>
    requires { LaidOut bytes.now t }
    ensures { result ≡ first_in 0 (states_of bytes.now) (mark_wrong bytes.now) }
{
    let limit = 4usize << t.sets;
    (0..t.states).find(
        |&s|
            requires { MarkInside bytes.now t s }
        { limit <= usize::from(table::mark(bytes, t, s)) },
    )
}

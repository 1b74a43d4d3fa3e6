// The reading functions: what stands at a place of the file. Each asks just that the place is inside; an accepted table's places are, by
// the laws of proofs/Inside.antt. They take the bytes and the counts apart: a struct of both whose invariant says that the counts are the header's
// would ask more than these functions of docs/PROMISES.md do, and one without it is no plainer, since each clause has `self.entry.bytes.now` for
// `bytes.now`.
ghost use Rattle.std.specs.Prelude.{◌≡◌, ◌+◌, ◌≤◌, ◌<◌, length};
ghost use Rattle.table.specs.Layout.{word_at, states_of, row_start as rowStartOf, target as target_of, mark as mark_of};
ghost use Rattle.table.specs.Inside.{RowInside, TargetInside, MarkInside};
ghost use Rattle.table.specs.BlockOf.{block_of};
ghost use Rattle.table.specs.WellFormed.{WellFormed};

use super::Table;

// The little-endian 32-bit number at index `at`. (std has no `From<u32>` for usize.)
#[tactic(auto, unfolding(crate::specs::Layout::word_at))]
pub fn word(bytes: &[u8], at: usize) -> usize
    requires { at + 4 ≤ length bytes.now }
    ensures { result ≡ word_at bytes.now at }
{
    u32::from_le_bytes([bytes[at], bytes[at + 1], bytes[at + 2], bytes[at + 3]]) as usize
}

// Row start s.
#[tactic(auto, unfolding(crate::specs::Layout::row_start))]
pub fn row_start(bytes: &[u8], s: usize) -> usize
    requires { RowInside bytes.now s }
    ensures { result ≡ rowStartOf bytes.now s }
{
    word(bytes, 28 + 4 * s)
}

// Target i.
#[tactic(auto, unfolding(crate::specs::Layout::target))]
pub fn target(bytes: &[u8], t: Table, i: usize) -> usize
    requires { TargetInside bytes.now t i }
    ensures { result ≡ target_of bytes.now i }
{
    word(bytes, 28 + 4 * (t.states + 1) + 4 * i)
}

// The marks of state s.
#[tactic(auto, unfolding(crate::specs::Layout::mark))]
pub fn mark(bytes: &[u8], t: Table, s: usize) -> u8
    requires { MarkInside bytes.now t s }
    ensures { result ≡ mark_of bytes.now s }
{
    bytes[28 + 4 * (t.states + 1) + 4 * t.edges + s]
}

// The state s is a start: bit 0 of its marks. (One function over the bit's number would be no plainer than `is_start` and `has_goal` at a call.)
#[tactic(auto, unfolding(crate::specs::BlockOf::block_of))]
pub fn is_start(bytes: &[u8], t: Table, s: usize) -> bool
    requires { MarkInside bytes.now t s }
    ensures { result ≡ (block_of bytes.now).start s }
{
    mark(bytes, t, s) % 2 == 1
}

// The state s has the goal: bit 1 of its marks.
#[tactic(auto, unfolding(crate::specs::BlockOf::block_of))]
pub fn has_goal(bytes: &[u8], t: Table, s: usize) -> bool
    requires { MarkInside bytes.now t s }
    ensures { result ≡ (block_of bytes.now).goal s }
{
    mark(bytes, t, s) / 2 % 2 == 1
}

// The fairness sets that hold the state s, a bit each: the marks from bit 2 on.
#[tactic(auto, unfolding(crate::specs::BlockOf::block_of))]
pub fn fair(bytes: &[u8], t: Table, s: usize) -> usize
    requires { MarkInside bytes.now t s }
    ensures { result ≡ (block_of bytes.now).fair s }
{
    usize::from(mark(bytes, t, s) / 4)
}

// s to s2 is an edge: s2 is a target in the row of s. By `find`, as the tests of lines 7 and 8: its laws are of the first index that fits, and `any`
// has others.
pub fn has_edge(bytes: &[u8], t: Table, s: usize, s2: usize) -> bool
    requires well_formed { WellFormed bytes.now }
    requires states_value { (t.states ≡ states_of bytes.now) × (s < t.states) }
    ensures { result ≡ (block_of bytes.now).edge s s2 }
{
    (row_start(bytes, s)..row_start(bytes, s + 1))
        .find(
            |&i|
                requires { TargetInside bytes.now t i }
            { target(bytes, t, i) == s2 },
        )
        .is_some()
}

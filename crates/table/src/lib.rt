// The table file: its counts and refusals, and reading it. docs/RULES.md, "The table file" and "Refusal list". The rules stand in specs/; opening
// stands in the crate `opening`.
#![tactic(auto)]

mod read;
mod refusal;

pub use read::{fair, has_edge, has_goal, is_start, mark, row_start, target, word};
pub use refusal::Refusal;

// What an accepted table counts: n states, e edges, m fairness sets.
#[derive(Clone, Copy)]
pub struct Table {
    pub states: usize,
    pub edges: usize,
    pub sets: usize,
}

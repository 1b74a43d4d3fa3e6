// Moving one record along one edge of a table. docs/RULES.md, "The recorder" and lines 12 and 13 of "Refusal list". The rules stand in specs/.
#![tactic(auto)]

ghost use Rattle.std.specs.Prelude.{◌≡◌, ◌≤◌};
ghost use Rattle.stepping.specs.Step.{record_fits, stepped_of};

use recorder::Record;
use table::Refusal;

// Line 12 is not given: s and next are of the n states, t is one or n for nothing, v has bits of the m sets alone. It asks nothing else of a table.
#[tactic(auto, unfolding(crate::specs::Step::record_fits))]
fn fits(n: usize, m: usize, r: Record, next: usize) -> bool
    requires { m ≤ 4 }
    ensures { result ≡ record_fits n m r next }
{
    r.s < n && next < n && r.t <= n && r.v < (1usize << m)
}

// Moves a record along the edge to `next`, with a save wish.
pub fn step(bytes: &[u8], r: Record, next: usize, wish: bool) -> Result<Record, Refusal>
    ensures { result ≡ stepped_of bytes.now r next wish }
{
    // Not by `?`: docs/RULES.md, "Forms in the code", names the form.
    let opened = opening::open(bytes);
    let Ok(t) = opened else {
        return Err(opening::why(opened));
    };
    if !fits(t.states, t.sets, r, next) {
        return Err(Refusal::WrongRecord);
    }
    if !table::has_edge(bytes, t, r.s, next) {
        return Err(Refusal::NoEdge);
    }
    let goal = table::has_goal(bytes, t, r.s);
    let fair = table::fair(bytes, t, r.s);
    Ok(r.step(t.states, goal, fair, next, wish))
}

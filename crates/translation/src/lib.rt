// The translated table. docs/RULES.md, "Translated table" and line 11 of "Refusal list". The rules stand in specs/. Each section has a loop over the
// slots of its own: what the three have in common is `r.following` on the way, and a function over a closure for it would be no plainer.
#![tactic(auto)]

mod header;
mod marks;
mod rows;
mod targets;

ghost use Rattle.translation.specs.Translated.{TranslateSays};

use table::Refusal;

// Translates the table in the bytes into the output, where it has room, and answers how many bytes were written. C lends the output, so the length
// comes back beside it, and nothing is made on the heap.
pub fn translate(bytes: &[u8], out: &mut [u8]) -> Result<usize, Refusal>
    ensures { TranslateSays bytes.now out.old result out.new }
{
    // Not by `?`: docs/RULES.md, "Forms in the code", names the form.
    let opened = opening::open(bytes);
    let Ok(t) = opened else {
        return Err(opening::why(opened));
    };
    let slots = recorder::slot_count(t.states, t.sets);
    let edges = quote::edge_count(t.states, t.edges, t.sets);
    let targets = 32 + 4 * slots;
    let marks = targets + 4 * edges;
    let size = marks + slots;
    if out.len() < size {
        return Err(Refusal::ShortOutput);
    }
    header::write_header(&mut out[0..28], slots, edges);
    rows::write_rows(bytes, t, &mut out[28..targets], slots);
    targets::write_targets(bytes, t, &mut out[targets..marks], slots);
    marks::write_marks(bytes, t, &mut out[marks..size]);
    Ok(size)
}

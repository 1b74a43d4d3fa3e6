// The search for the least lasso. docs/RULES.md, "Lasso and choice" and "Refusal list". The rules stand in specs/.
#![tactic(auto)]

mod climb;
mod queue;
mod scan;
mod starts;

ghost use Rattle.search.specs.Searched.{SearchSays};
ghost use Rattle.search.specs.Find.{FindAsks, FindSays};

use table::{Refusal, Table};

// The least lasso: its length k and its loop place l.
#[derive(Clone, Copy)]
pub struct Lasso {
    pub k: usize,
    pub l: usize,
}

// The search of an accepted table, with buffers that are long enough. None: the goal holds. Bytes and counts go apart, here, in scan.rt and in
// starts.rt, as in opening/src/faults.rt.
fn find(bytes: &[u8], t: Table, work: &mut [u32], report: &mut [u32], slots: usize) -> Option<Lasso>
    requires { FindAsks bytes.now t slots work.old report.old }
    ensures { FindSays bytes.now work.old report.old result work.new report.new }
{
    // The queue's words may hold anything: each is written before it is read.
    writing::clear(work, slots);
    let mut queue = starts::queue_starts(bytes, t, work, slots);
    let Some(head) = scan::scan(bytes, t, &mut queue) else {
        writing::clear(work, 2 * slots);
        return None;
    };
    let len = queue.path_length(head);
    let unsaved = queue.write_path(report, t, head, len);
    writing::clear(work, 2 * slots);
    Some(Lasso {
        k: len - 1,
        l: unsaved - 1,
    })
}

// Searches the table in the bytes for its least lasso, in the words of the workspace, and reports its states. None: the goal holds.
pub fn search(bytes: &[u8], work: &mut [u32], report: &mut [u32]) -> Result<Option<Lasso>, Refusal>
    ensures { SearchSays bytes.now work.old report.old result work.new report.new }
{
    // Not by `?`: docs/RULES.md, "Forms in the code", names the form.
    let opened = opening::open(bytes);
    let Ok(t) = opened else {
        return Err(opening::why(opened));
    };
    let slots = recorder::slot_count(t.states, t.sets);
    if work.len() < 2 * slots {
        return Err(Refusal::ShortWorkspace);
    }
    if report.len() < slots {
        return Err(Refusal::ShortReport);
    }
    Ok(find(bytes, t, work, report, slots))
}

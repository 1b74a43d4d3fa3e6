// The nested scan of queue and row, left at the first bad slot, in the middle of a row if need be.
ghost use Rattle.recorder.specs.Flag.{live_flag};
ghost use Rattle.search.specs.Meet.{SameQueue};
ghost use Rattle.search.specs.Scan.{ScanAsks, ScanSays};

use super::queue::Queue;
use recorder::Record;
use table::Table;

// Answers the index of the queue that leads to the first bad slot, or nothing where no run ends bad.
pub(crate) fn scan(bytes: &[u8], t: Table, queue: &mut Queue) -> Option<usize>
    requires { ScanAsks live_flag bytes.now t queue.old.slots queue.old.work.now queue.old.tail }
    ensures says { ScanSays live_flag bytes.now queue.old.slots queue.old.work.now result queue.new.work.now }
    ensures same { SameQueue queue.old queue.new }
{
    let n = t.states;
    let m = t.sets;
    let mut head = 0;
    // The queue grows while it is read, so its end is tested at each turn.
    'queue: {
        while head < queue.tail {
            // std has no `From<u32>` for usize.
            let x = queue.work[queue.slots + head] as usize;
            let r = Record::of_slot(x, n, m);
            let goal = table::has_goal(bytes, t, r.s);
            let fair = table::fair(bytes, t, r.s);
            let from = table::row_start(bytes, r.s);
            let to = table::row_start(bytes, r.s + 1);
            for i in from..to {
                let next = table::target(bytes, t, i);
                let saving = r.step(n, goal, fair, next, true);
                if saving.is_bad(m) {
                    break 'queue Some(head);
                }
                let y = saving.slot(n, m);
                queue.meet(y, head + 2);
                if r.t == n {
                    let plain = r.step(n, goal, fair, next, false);
                    let z = plain.slot(n, m);
                    queue.meet(z, head + 2);
                }
            }
            head += 1;
        }
        None
    }
}

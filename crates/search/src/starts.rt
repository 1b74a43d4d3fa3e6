// Queueing the starts, in the order of their labels.
ghost use Rattle.std.specs.Prelude.{◌≡◌};
ghost use Rattle.recorder.specs.Flag.{live_flag};
ghost use Rattle.search.specs.Starts.{StartsAsk, StartsSay};

use super::queue::Queue;
use recorder::Record;
use table::Table;

// A queue in the words of the workspace, that holds the slot of each start's record, met as a start.
pub(crate) fn queue_starts<'a>(
    bytes: &[u8],
    t: Table,
    work: &'a mut [u32],
    slots: usize,
) -> Queue<'a>
    requires { StartsAsk bytes.now t slots work.old }
    ensures says { StartsSay live_flag bytes.now slots work.old result.tail result.work.now }
    ensures slots { result.slots ≡ slots }
    ensures same_reference { result.work.ghost_name ≡ work.entry.ghost_name }
{
    let n = t.states;
    let m = t.sets;
    let mut queue = Queue {
        work,
        slots,
        tail: 0,
    };
    for s in 0..n {
        let start = table::is_start(bytes, t, s);
        if start {
            let x = Record::start(s, n).slot(n, m);
            queue.meet(x, 1);
        }
    }
    queue
}

// Following the origins from an index of the queue back to a start: how long the path to that index is, and the states on it.
ghost use Rattle.std.specs.Prelude.{◌≡◌, ◌++◌, ℕ, ◌≤◌, ◌<◌, length, drop};
ghost use Rattle.recorder.specs.Slots.{slot_count};
ghost use Rattle.search.specs.Climb.{Climbs, path_by, label_of};
ghost use Rattle.search.specs.Report.{halves, odds};

use super::queue::Queue;
use recorder::Record;
use table::Table;

impl Queue<'_> {
    // How many records the path to index head has, whatever their labels.
    pub(crate) fn path_length(&self, head: usize) -> usize
        requires { Climbs self.now.work.now self.now.slots head }
        ensures { (label : ℕ → ℕ) → result ≡ length (path_by label self.now.slots self.now.work.now head) }
    {
        let mut i = head;
        let mut len = 0;
        // This loop goes from origin to origin and counts no index, so it is no `for`.
        loop {
            len += 1;
            let x = writing::at(self.work, self.slots + i);
            let origin = writing::at(self.work, x);
            if origin < 2 {
                return len;
            }
            i = origin - 2;
        }
    }

    // Writes the states of the path to index head into the first `len` report words, the last one first. Answers how many of its records have
    // nothing saved.
    pub(crate) fn write_path(&self, report: &mut [u32], t: Table, head: usize, len: usize) -> usize
        requires climbs { Climbs self.now.work.now self.now.slots head }
        requires n_bound { (t.states ≤ 64) × (t.sets ≤ 8) × (self.now.slots ≡ slot_count t.states t.sets) }
        requires len_value { (len ≡ length (path_by (label_of t.states t.sets) self.now.slots self.now.work.now head)) × (len ≤ length report.old) }
        ensures value { result ≡ odds (path_by (label_of t.states t.sets) self.now.slots self.now.work.now head) }
        ensures report_after { report.new ≡ halves (path_by (label_of t.states t.sets) self.now.slots self.now.work.now head) ++ drop len report.old }
    {
        let n = t.states;
        let m = t.sets;
        let mut i = head;
        let mut unsaved = 0;
        for left in (0..len).rev() {
            let x = writing::at(self.work, self.slots + i);
            let r = Record::of_slot(x, n, m);
            // A state is below 64; `TryFrom` would have an arm that is never reached.
            report[left] = r.s as u32;
            unsaved += usize::from(r.t == n);
            let origin = writing::at(self.work, x);
            // The last turn comes to a start, whose origin is 1, and i is not read again.
            i = origin.saturating_sub(2);
        }
        unsaved
    }
}

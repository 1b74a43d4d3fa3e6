// The targets of the translated table: row after row, what each slot leads to. Bytes and counts go apart, as in opening/src/faults.rt.
ghost use Rattle.std.specs.Prelude.{◌≡◌, ◌+◌, ◌*◌, ◌≤◌, length};
ghost use Rattle.recorder.specs.Flag.{live_flag};
ghost use Rattle.recorder.specs.Slots.{slot_of, InRange};
ghost use Rattle.table.specs.Layout.{little_endian};
ghost use Rattle.table.specs.Recording.{slots_of};
ghost use Rattle.writing.specs.Placed.{placed};
ghost use Rattle.translation.specs.File.{row_of, targets_to, start_of_row};
ghost use Rattle.translation.specs.Asks.{Asks};

use recorder::Record;
use table::Table;

// Writes the row of the slot of the record r at index `at`: along each edge of its state the step that saves, and where nothing is saved the other
// one after it. Answers the index after the row, where the next one begins: no pieces of one size, since a row has one or two targets an edge.
fn write_row(bytes: &[u8], t: Table, part: &mut [u8], at: usize, r: Record) -> usize
    requires asks { Asks bytes.now t }
    requires r_in { InRange t.states t.sets r }
    requires room { at + 4 * length (row_of live_flag bytes.now (slot_of t.states t.sets r)) ≤ length part.old }
    ensures value { result ≡ at + 4 * length (row_of live_flag bytes.now (slot_of t.states t.sets r)) }
    ensures part_after { part.new ≡ placed at (little_endian (row_of live_flag bytes.now (slot_of t.states t.sets r))) part.old }
{
    let n = t.states;
    let goal = table::has_goal(bytes, t, r.s);
    let fair = table::fair(bytes, t, r.s);
    // Only the state differs from edge to edge: x and y are the slots of the steps to state 0, and a state has `each` slots.
    let x = r.step(n, goal, fair, 0, true).slot(n, t.sets);
    let y = r.step(n, goal, fair, 0, false).slot(n, t.sets);
    let each = recorder::with_flag_and_bits(1, n + 1, t.sets);
    let from = table::row_start(bytes, r.s);
    let to = table::row_start(bytes, r.s + 1);
    let mut end = at;
    for i in from..to {
        let first = table::target(bytes, t, i) * each;
        writing::put(part, end, first + x);
        end += 4;
        if r.t == n {
            writing::put(part, end, first + y);
            end += 4;
        }
    }
    end
}

// Writes the rows of all slots.
pub(crate) fn write_targets(bytes: &[u8], t: Table, part: &mut [u8], slots: usize)
    requires asks { Asks bytes.now t }
    requires slots_are { slots ≡ slots_of bytes.now }
    requires part_len { length part.old ≡ 4 * start_of_row live_flag bytes.now slots }
    ensures { part.new ≡ little_endian (targets_to live_flag bytes.now slots) }
{
    let mut r = Record::of_slot(0, t.states, t.sets);
    let mut at = 0;
    for _ in 0..slots {
        at = write_row(bytes, t, part, at, r);
        r = r.following(t.states, t.sets);
    }
}

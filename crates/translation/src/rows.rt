// The row starts of the translated table. Bytes and counts go apart, as in opening/src/faults.rt.
ghost use Rattle.std.specs.Prelude.{◌≡◌, suc, ◌*◌, length};
ghost use Rattle.recorder.specs.Flag.{live_flag};
ghost use Rattle.recorder.specs.Slots.{slot_of, InRange};
ghost use Rattle.table.specs.Layout.{little_endian};
ghost use Rattle.table.specs.Recording.{slots_of};
ghost use Rattle.writing.specs.File.{listed};
ghost use Rattle.translation.specs.File.{row_of, start_of_row};
ghost use Rattle.translation.specs.Asks.{Asks};

use recorder::Record;
use table::Table;

// How many targets the row of the slot of the record r has: for each edge of its state one, or two where nothing is saved.
fn row_length(bytes: &[u8], t: Table, r: Record) -> usize
    requires asks { Asks bytes.now t }
    requires r_in { InRange t.states t.sets r }
    ensures { result ≡ length (row_of live_flag bytes.now (slot_of t.states t.sets r)) }
{
    let from = table::row_start(bytes, r.s);
    let to = table::row_start(bytes, r.s + 1);
    (to - from) * (1 + usize::from(r.t == t.states))
}

// Writes where each row starts, and where the last one ends.
pub(crate) fn write_rows(bytes: &[u8], t: Table, part: &mut [u8], slots: usize)
    requires asks { Asks bytes.now t }
    requires slots_are { slots ≡ slots_of bytes.now }
    requires part_len { length part.old ≡ 4 * suc slots }
    ensures { part.new ≡ little_endian (listed (start_of_row live_flag bytes.now) (suc slots)) }
{
    let mut r = Record::of_slot(0, t.states, t.sets);
    let mut sum = 0;
    for p in 0..slots {
        writing::put(part, 4 * p, sum);
        sum += row_length(bytes, t, r);
        r = r.following(t.states, t.sets);
    }
    writing::put(part, 4 * slots, sum);
}

// The marks of the translated table: a byte for each slot. Bytes and counts go apart, as in opening/src/faults.rt.
ghost use Rattle.std.specs.Prelude.{◌≡◌, length};
ghost use Rattle.recorder.specs.Flag.{live_flag};
ghost use Rattle.recorder.specs.Slots.{slot_of, InRange};
ghost use Rattle.table.specs.Recording.{slots_of};
ghost use Rattle.writing.specs.File.{listed};
ghost use Rattle.translation.specs.File.{slot_mark};
ghost use Rattle.translation.specs.Asks.{Asks};

use recorder::Record;
use table::Table;

// The mark of slot p, whose record is r: bit 0 start, bit 1 goal, bit 6 bad.
fn mark(bytes: &[u8], t: Table, p: usize, r: Record) -> u8
    requires asks { Asks bytes.now t }
    requires r_in { InRange t.states t.sets r }
    requires p_is { p ≡ slot_of t.states t.sets r }
    ensures { result ≡ slot_mark live_flag bytes.now p }
{
    let x = Record::start(r.s, t.states).slot(t.states, t.sets);
    let start = table::is_start(bytes, t, r.s) & (p == x);
    let goal = table::has_goal(bytes, t, r.s);
    let bad = r.is_bad(t.sets);
    u8::from(start) + 2 * u8::from(goal) + 64 * u8::from(bad)
}

// Writes the marks of all slots.
pub(crate) fn write_marks(bytes: &[u8], t: Table, part: &mut [u8])
    requires asks { Asks bytes.now t }
    requires part_len { length part.old ≡ slots_of bytes.now }
    ensures { part.new ≡ listed (slot_mark live_flag bytes.now) (slots_of bytes.now) }
{
    let mut r = Record::of_slot(0, t.states, t.sets);
    for (p, byte) in part.iter_mut().enumerate() {
        *byte = mark(bytes, t, p, r);
        r = r.following(t.states, t.sets);
    }
}

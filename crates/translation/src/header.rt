// The header of the translated table.
ghost use Rattle.std.specs.Prelude.{◌≡◌, ◌≤◌, length};
ghost use Rattle.table.specs.Layout.{little_endian, rows_at, marks_at};
ghost use Rattle.writing.specs.File.{header_of};

// Writes the header of a table of kind 2 with so many states and edges.
pub(crate) fn write_header(part: &mut [u8], slots: usize, edges: usize)
    requires part_len { length part.old ≡ rows_at }
    requires edges_bound { marks_at slots edges ≤ 4294967295 }
    ensures { part.new ≡ little_endian (header_of 2 slots edges 0) }
{
    let targets = 28 + 4 * (slots + 1);
    writing::put(part, 0, 2);
    writing::put(part, 4, slots);
    writing::put(part, 8, edges);
    writing::put(part, 12, 0);
    writing::put(part, 16, 28);
    writing::put(part, 20, targets);
    writing::put(part, 24, targets + 4 * edges);
}

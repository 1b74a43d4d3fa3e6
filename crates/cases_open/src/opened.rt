// The tables that are opened, in the order of the refusal list.
use crate::Case;
use crate::made::Change::{
    Edges, Kind, Mark, Marks, Row, RowStarts, Sets, States, Target, Targets,
};
use crate::made::Made::{Bytes, Counted, Drawn, First, With};

// Lines 1, 2, 3, 14, 15 and 4: the length, the kind, the counts and the layout.
pub(crate) const HEADS: &[Case] = &[
    // Line 1 ends at 28 bytes. What 28 bytes give then goes by what they hold.
    ("0 bytes of a", First(0)),
    ("27 bytes of a", First(27)),
    ("28 bytes of a", First(28)),
    ("27 zeros", Bytes(&[0; 27])),
    ("28 zeros", Bytes(&[0; 28])),
    ("kind 1, then 24 zeros", Bytes(&KIND_ALONE)),
    // Line 2: kind 1 alone, and all four bytes of it count.
    ("kind 1", With(&[Kind(1)])),
    ("kind 0", With(&[Kind(0)])),
    ("kind 2", With(&[Kind(2)])),
    ("kind 257", With(&[Kind(257)])),
    ("kind 65537", With(&[Kind(65537)])),
    ("kind 16777217", With(&[Kind(16777217)])),
    // Line 3: both ends of the range of n, and what lies just outside.
    ("states 0", With(&[States(0)])),
    ("states 1", Counted(1, 1, 0)),
    ("states 64", Counted(64, 64, 0)),
    ("states 65", Counted(65, 65, 0)),
    ("states 4294967295", With(&[States(4294967295)])),
    // Line 14: the same of e.
    ("edges 0", With(&[Edges(0)])),
    ("edges 0 of 1 state", Counted(1, 0, 0)),
    ("edges 1", Counted(1, 1, 0)),
    ("edges 1024", Counted(32, 1024, 0)),
    ("edges 1025", Counted(41, 1025, 0)),
    ("edges 4294967295", With(&[Edges(4294967295)])),
    // Line 15: the same of m, and then the largest table.
    ("sets 4", Counted(4, 8, 4)),
    ("sets 5", Counted(4, 8, 5)),
    ("sets 4294967295", With(&[Sets(4294967295)])),
    ("the largest table", Counted(64, 1024, 4)),
    // Line 4: each offset, wrong by one on both sides.
    ("row starts at 27", With(&[RowStarts(27)])),
    ("row starts at 29", With(&[RowStarts(29)])),
    ("targets at 47", With(&[Targets(47)])),
    ("targets at 49", With(&[Targets(49)])),
    ("marks at 79", With(&[Marks(79)])),
    ("marks at 81", With(&[Marks(81)])),
    ("marks at 65616", With(&[Marks(65616)])),
    // Line 4: the length, wrong by one on both sides.
    ("length 83", First(83)),
    ("length 84", First(84)),
    ("length 85", First(85)),
];

const KIND_ALONE: [u8; 28] = *b"\x01\0\0\0\0\0\0\0\0\0\0\0\0\0\0\0\0\0\0\0\0\0\0\0\0\0\0\0";

// Lines 5 to 7: the row starts, the targets and the empty rows. Table a's row starts are 0 2 4 6 8, its rows 0 1, 1 2, 2 3 and 0 3.
pub(crate) const ROWS: &[Case] = &[
    // Line 5: each way in which a row start can be wrong.
    ("row start 0 is 1", With(&[Row(0, 1)])),
    ("row start 2 falls", With(&[Row(2, 1)])),
    ("row start 2 is above e", With(&[Row(2, 9)])),
    ("row start 1 is 4294967295", With(&[Row(1, 4294967295)])),
    ("the last row start is below e", With(&[Row(4, 7)])),
    ("the last row start is above e", With(&[Row(4, 9)])),
    ("the last row start falls", With(&[Row(4, 5)])),
    // Line 6: each way in which a target can be wrong.
    ("target 0 is n", With(&[Target(0, 4)])),
    ("target 1 is n", With(&[Target(1, 4)])),
    ("target 7 is n", With(&[Target(7, 4)])),
    ("target 3 is 4294967295", With(&[Target(3, 4294967295)])),
    ("target 1 is as the one before", With(&[Target(1, 0)])),
    ("target 7 is as the one before", With(&[Target(7, 0)])),
    ("target 5 falls", With(&[Target(5, 1)])),
    // Only within a row must targets rise: in table a target 2, the first of row 1, is equal to target 1, and target 6, the first of row 3, is below
    // target 5. Where rows part is up to the row starts.
    ("target 2 is below the last of row 0", With(&[Target(2, 0)])),
    ("row 1 takes the first target of row 2", With(&[Row(2, 5)])),
    ("row 2 takes the last target of row 1", With(&[Row(2, 3)])),
    // Line 7: table a with rows emptied. Of two the first is named. A set's mark on state 0, where there are no sets, is line 8 and comes after.
    ("row 0 is empty", Drawn("s 12 23 g03", 0)),
    ("row 1 is empty", Drawn("s01  23 g03", 0)),
    ("row 3 is empty", Drawn("s01 12 23 g", 0)),
    ("rows 1 and 2 are empty", Drawn("s01   g03", 0)),
    ("rows 0 and 3 are empty", Drawn("s 12 23 g", 0)),
    ("row 3 is empty, mark 0 is 5", Drawn("sa01 12 23 g", 0)),
];

// Line 8, after each bit by itself: all that may be set together, and all eight.
pub(crate) const MARKS: &[Case] = &[
    ("sets 4, mark 2 is 63", With(&[Sets(4), Mark(2, 63)])),
    ("sets 4, mark 2 is 255", With(&[Sets(4), Mark(2, 255)])),
];

// Two faults at once. The first in the list's order that applies is given, and within a line the first place. Lines 1 and 2 together stand in
// HEADS, as 27 zeros, and 3 and 14, as kind 1 and zeros; lines 7 and 8 stand in ROWS.
pub(crate) const TWO_FAULTS: &[Case] = &[
    // Faults of two lines. Where both lines name a place, the later line's is the lower. The last case empties row 3 too.
    ("kind 0, sets 5", With(&[Kind(0), Sets(5)])),
    ("edges 0, sets 5", With(&[Edges(0), Sets(5)])),
    ("sets 5, marks at 79", With(&[Sets(5), Marks(79)])),
    (
        "marks at 79, row start 0 is 1",
        With(&[Marks(79), Row(0, 1)]),
    ),
    (
        "row start 4 is 7, target 0 is 4",
        With(&[Row(4, 7), Target(0, 4)]),
    ),
    (
        "target 7 is 4, mark 0 is 129",
        With(&[Target(7, 4), Mark(0, 129)]),
    ),
    ("row 2 takes the targets of row 3", With(&[Row(3, 8)])),
    // Two faults of one line.
    (
        "targets at 49, marks at 79",
        With(&[Targets(49), Marks(79)]),
    ),
    ("row starts 3 and 1 are 9", With(&[Row(3, 9), Row(1, 9)])),
    ("targets 6 and 1 are 4", With(&[Target(6, 4), Target(1, 4)])),
    ("marks 3 and 1 are 64", With(&[Mark(3, 64), Mark(1, 64)])),
];

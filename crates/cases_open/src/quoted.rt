// The tables that are quoted.
use crate::Case;
use crate::made::Change::Mark;
use crate::made::Made::{Counted, Drawn, First, With};

// The twelve tables of docs/RULES.md, "Tables by hand".
pub(crate) const BY_HAND: &[Case] = &[
    ("table a", Drawn("s01 12 23 g03", 0)),
    ("table b", Drawn("s1 2 3 g0", 0)),
    ("table c", Drawn("s0", 0)),
    ("table d", Drawn("sg0", 0)),
    ("table e", Drawn("s01 a1", 1)),
    ("table f", Drawn("sa1 1", 1)),
    ("table g", Drawn("sa1 b0", 2)),
    ("table h", Drawn("s1 01", 0)),
    ("table i", Drawn("s1 23 1 0", 0)),
    ("table j", Drawn("s14 24 34 04 g0123", 0)),
    ("table k", Drawn("0", 0)),
    ("table l", Drawn("s0", 4)),
];

// Boards B to H, and none. The pairs are apart by one edge, and only the second runs out of the board's edges. A set i below m has n - 1 - i members.
pub(crate) const BOARDS: &[Case] = &[
    ("quote of 6 32 1", Counted(6, 32, 1)),
    ("quote of 6 33 1", Counted(6, 33, 1)),
    ("quote of 22 22 0", Counted(22, 22, 0)),
    ("quote of 22 22 2", Counted(22, 22, 2)),
    ("quote of 22 22 3", Counted(22, 22, 3)),
    ("quote of 22 22 4", Counted(22, 22, 4)),
    ("quote of 44 44 3", Counted(44, 44, 3)),
    ("quote of 63 1008 3", Counted(63, 1008, 3)),
    ("quote of 63 1009 3", Counted(63, 1009, 3)),
    ("quote of 64 64 3", Counted(64, 64, 3)),
    ("quote of 64 1024 4", Counted(64, 1024, 4)),
];

// The sheet beside a refusal is all zeros.
pub(crate) const REFUSED: &[Case] = &[
    ("quote of 0 bytes", First(0)),
    ("quote of 65 65 1", Counted(65, 65, 1)),
    ("quote of a, mark 3 is 64", With(&[Mark(3, 64)])),
];

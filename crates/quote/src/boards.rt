// The boards. docs/RULES.md, "Quote sheet".
ghost use Rattle.std.specs.Prelude.{◌≡◌};
ghost use Rattle.quote.specs.Boards.{board_of};

#[derive(Clone, Copy)]
pub struct Board {
    pub slots: usize,
    pub edges: usize,
}

// Rows A to H.
const BOARDS: [Board; 8] = [
    Board {
        slots: 64,
        edges: 256,
    },
    Board {
        slots: 256,
        edges: 1024,
    },
    Board {
        slots: 1024,
        edges: 4096,
    },
    Board {
        slots: 4096,
        edges: 16384,
    },
    Board {
        slots: 8192,
        edges: 65536,
    },
    Board {
        slots: 16384,
        edges: 131072,
    },
    Board {
        slots: 32768,
        edges: 262144,
    },
    Board {
        slots: 65536,
        edges: 1048576,
    },
];

// The first row with room for both, or none.
pub(crate) fn first_with_room(slots: usize, edges: usize) -> Option<usize>
    ensures { result ≡ board_of slots edges }
{
    BOARDS
        .iter()
        .position(|row| slots <= row.slots && edges <= row.edges)
}

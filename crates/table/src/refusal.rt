// The refusal list as an enum, in the list's order, with the numbers and places that the C functions and the programs tell. docs/RULES.md, "Refusal
// list".
ghost use Rattle.std.specs.Prelude.{◌≡◌};
ghost use Rattle.table.specs.Refusals.{number_of, place_of};

// A line of the list, with its place where the list names one.
#[derive(Clone, Copy)]
pub enum Refusal {
    TooShort,
    WrongKind,
    WrongStates,
    WrongEdges,
    WrongSets,
    WrongLayout,
    WrongRowStart(usize),
    WrongTarget(usize),
    EmptyRow(usize),
    WrongMark(usize),
    ShortWorkspace,
    ShortReport,
    ShortOutput,
    WrongRecord,
    NoEdge,
}

impl Refusal {
    pub fn number(self) -> u32
        ensures { result ≡ number_of self }
    {
        match self {
            Refusal::TooShort => 1,
            Refusal::WrongKind => 2,
            Refusal::WrongStates => 3,
            Refusal::WrongEdges => 14,
            Refusal::WrongSets => 15,
            Refusal::WrongLayout => 4,
            Refusal::WrongRowStart(_) => 5,
            Refusal::WrongTarget(_) => 6,
            Refusal::EmptyRow(_) => 7,
            Refusal::WrongMark(_) => 8,
            Refusal::ShortWorkspace => 9,
            Refusal::ShortReport => 10,
            Refusal::ShortOutput => 11,
            Refusal::WrongRecord => 12,
            Refusal::NoEdge => 13,
        }
    }

    // 0 where the list names no place.
    pub fn place(self) -> usize
        ensures { result ≡ place_of self }
    {
        match self {
            Refusal::WrongRowStart(i) | Refusal::WrongTarget(i) => i,
            Refusal::EmptyRow(s) | Refusal::WrongMark(s) => s,
            _ => 0,
        }
    }
}

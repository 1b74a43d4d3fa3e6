// Tables with some bytes changed.
ghost use Rattle.std.specs.Prelude.{◌≡◌};
ghost use Rattle.cases.specs.Changed.{changed};

// The table, and of each change (at, x) in turn the byte at `at` is x. A change past the end changes nothing.
#[tactic(auto, unfolding(crate::specs::Changed::changed))]
pub fn with<const N: usize>(mut table: [u8; N], changes: &[(usize, u8)]) -> [u8; N]
    ensures { result ≡ changed table.entry changes.now }
{
    for &(at, x) in changes {
        if at < N {
            table[at] = x;
        }
    }
    table
}

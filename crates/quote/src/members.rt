// The members of a fairness set. docs/RULES.md, "Quote sheet".
ghost use Rattle.std.specs.Prelude.{◌≡◌, ◌<◌};
ghost use Rattle.table.specs.BlockOf.{block_of};
ghost use Rattle.table.specs.LaidOut.{LaidOut};
ghost use Rattle.quote.specs.Members.{members_of};

use table::Table;

// How many states set i holds: those with bit 2 + i in their marks.
pub(crate) fn count(bytes: &[u8], t: Table, i: usize) -> usize
    requires laid_out { LaidOut bytes.now t }
    requires i_bound { i < 4 }
    ensures { result ≡ members_of (block_of bytes.now) i }
{
    let unit = 1usize << i;
    let mut found = 0;
    for s in 0..t.states {
        found += table::fair(bytes, t, s) / unit % 2;
    }
    found
}

// Cases of a step, one line each, held to the file `stdout`. docs/RULES.md, "The recorder", lines 12 and 13 of "Refusal list", and those of
// "Plausible slips" that a single step can show.
#![tactic(auto)]

use cases::Refused;
use recorder::Record;
use samples::{A, D, E, F, G, GOAL_AT_THE_START as START, TOO_MANY, WRONG_MARK};
use std::io;

const FAR: usize = usize::MAX;

// A name, a table, a record, the next state and the save wish.
type Case = (&'static str, &'static [u8], Record, usize, bool);

// The record at state s, with t saved and the bits v.
fn at(s: usize, t: usize, v: usize) -> Record {
    Record {
        s,
        t,
        live: false,
        v,
    }
}

// The same with the flag live.
fn live(s: usize, t: usize, v: usize) -> Record {
    Record {
        live: true,
        ..at(s, t, v)
    }
}

fn main(rt: HostRuntime) -> io::Result<()> {
    let cases: &[Case] = &[
        // The bits of the state that is saved count on the saving step; a wish where a state is saved already changes nothing.
        ("e save at 1", &E, at(1, 2, 0), 1, true),
        ("e no wish at 1", &E, at(1, 2, 0), 1, false),
        ("e save at 0", &E, at(0, 2, 0), 1, true),
        ("e wish, 0 saved", &E, at(1, 0, 0), 1, true),
        ("e no wish, 0 saved", &E, at(1, 0, 0), 1, false),
        ("e bit kept", &E, at(0, 0, 1), 1, false),
        // No bits are set before the save, and all the bits of each state from it on.
        ("f no bits before the save", &F, at(0, 2, 0), 1, false),
        ("f save after that", &F, at(1, 2, 0), 1, true),
        ("f save at 0", &F, at(0, 2, 0), 1, true),
        ("g save at 0", &G, at(0, 2, 0), 1, true),
        ("g second bit", &G, at(1, 0, 1), 0, false),
        ("g both bits kept", &G, at(0, 0, 3), 1, false),
        // The goal is that of the state that is left; a flag that is set stays set.
        ("a into the goal", &A, at(2, 4, 0), 3, false),
        ("a out of the goal", &A, at(3, 4, 0), 0, false),
        ("a stays live", &A, live(0, 4, 0), 1, false),
        ("a stays live, saving", &A, live(1, 4, 0), 2, true),
        ("goal at the start", &START, at(0, 2, 0), 1, false),
        ("goal at the start, saving", &START, at(0, 2, 0), 1, true),
        ("d save", &D, at(0, 1, 0), 0, true),
        // Line 12, one wrong part at a time and two, at the limits and far above.
        ("e all parts at the limit", &E, live(1, 2, 1), 1, false),
        ("e s = n", &E, at(2, 2, 0), 1, false),
        ("e next = n", &E, at(0, 2, 0), 2, false),
        ("e t = n + 1", &E, at(0, 3, 0), 1, false),
        ("e v = 2^m", &E, at(0, 2, 2), 1, false),
        ("e s = next = n", &E, at(2, 2, 0), 2, false),
        ("e t and v", &E, at(0, 3, 2), 1, false),
        ("e far above", &E, live(FAR, FAR, FAR), FAR, true),
        // 2^m by the table's own m.
        ("a v = 1, no set", &A, at(0, 4, 1), 0, false),
        ("g v = 3", &G, at(0, 2, 3), 1, false),
        ("g v = 4", &G, at(0, 2, 4), 1, false),
        // Line 13, and line 12 before it where both are given.
        ("e 1 to 0", &E, at(1, 2, 0), 0, true),
        ("e 0 to 1", &E, at(0, 2, 0), 1, false),
        ("f 0 to 0", &F, at(0, 2, 0), 0, false),
        ("e 1 to 0, t = n + 1", &E, at(1, 3, 0), 0, false),
        ("e 1 to 0, v = 2^m", &E, at(1, 2, 2), 0, false),
        // A refused table gives its own line, before 12 and 13.
        ("27 bytes of e", &E[..27], at(1, 2, 0), 1, true),
        ("n 65", &TOO_MANY, at(1, 2, 0), 1, true),
        ("state 1 in set 1 of 1", &WRONG_MARK, at(1, 2, 0), 1, true),
        ("that, and t = n + 1", &WRONG_MARK, at(1, 3, 0), 1, true),
        ("that, and no edge", &WRONG_MARK, at(1, 2, 0), 0, true),
    ];
    for &(name, table, r, next, wish) in cases {
        match stepping::step(table, r, next, wish) {
            Ok(Record { s, t, live, v }) => {
                println!(rt; "{name}: {s} {t} {} {v}", u8::from(live))?;
            }
            Err(why) => println!(rt; "{name}: {}", Refused(why))?,
        }
    }
    Ok(())
}

// Cases of a search, one line each, held to the file `stdout`. docs/RULES.md, "Lasso and choice", "Refusal list", "Tables by hand" and
// "Plausible slips".
#![tactic(auto)]

mod show;

use cases::Pattern;
use samples::{
    A, ALL_IN_ONE, B, C, D, E, F, G, GOAL_AT_ONE_START, GOAL_AT_THE_START, GOAL_CANNOT_BE_PASSED,
    GOAL_ON_THE_WAY, H, I, J, K, L, LATER_START, PETALS, RING, RING_OF_SETS,
    SET_ON_THE_TAIL as SET_ON_TAIL, TAIL, TWO_STARTS, TWO_WAYS,
};
use show::{Case, Lent, RISING, Rest, line_of};
use std::io;

// The twelve tables of docs/RULES.md, "Tables by hand", with 2S and S words. Each line has the whole report.
const BY_HAND: &[Case] = &[
    ("a", &A, 80, 40),
    ("b", &B, 80, 40),
    ("c", &C, 8, 4),
    ("d", &D, 8, 4),
    ("e", &E, 48, 24),
    ("f", &F, 48, 24),
    ("g", &G, 96, 48),
    ("h", &H, 24, 12),
    ("i", &I, 80, 40),
    ("j", &J, 120, 60),
    ("k", &K, 8, 4),
    ("l", &L, 128, 64),
];

// Lines 9 and 10 of docs/RULES.md, "Refusal list", and what an accepted search leaves of buffers that are longer than it needs.
const LENGTHS: &[Case] = &[
    // Table a has 40 slots. Where both buffers are short it is line 9.
    ("a", &A, 79, 40),
    ("a", &A, 80, 39),
    ("a", &A, 79, 39),
    ("a", &A, 0, 0),
    ("a", &A, 0, 40),
    ("a", &A, 80, 0),
    ("a", &A, 80, 40),
    // The slots of the others go by n + 1 and by 2^m too: c has 4, g 48 and l 64.
    ("c", &C, 7, 4),
    ("c", &C, 8, 3),
    ("g", &G, 95, 48),
    ("g", &G, 96, 47),
    ("l", &L, 127, 64),
    ("l", &L, 128, 63),
    // Past the first 2S workspace words, and past the run in the report, nothing changes.
    ("a", &A, 81, 41),
    ("a", &A, 100, 64),
    ("e", &E, 60, 25),
    ("i", &I, 200, 100),
    ("j", &J, 200, 100),
    // With "holds" the whole report stays.
    ("b", &B, 100, 64),
    ("f", &F, 60, 25),
    ("l", &L, 200, 100),
];

// More tables for docs/RULES.md, "Lasso and choice" and "Plausible slips".
const SLIPS: &[Case] = &[
    // The goal rules a state out, be it a start, on the way or at the end.
    ("goal at the start", &GOAL_AT_THE_START, 24, 12),
    ("goal at one of two starts", &GOAL_AT_ONE_START, 24, 12),
    ("goal on the shorter way", &GOAL_ON_THE_WAY, 120, 60),
    ("goal on the only way", &GOAL_CANNOT_BE_PASSED, 48, 24),
    // Of two starts, and of two ways, the least; a shorter lasso from a later start is taken first.
    ("two starts", &TWO_STARTS, 48, 24),
    ("shorter from the later start", &LATER_START, 48, 24),
    ("two ways", &TWO_WAYS, 80, 40),
    ("tail of two states", &TAIL, 80, 40),
    // Four sets: the loop needs a member of each, and a member before it does not count.
    ("ring of four sets", &RING_OF_SETS, 1280, 640),
    ("one state in four sets", &ALL_IN_ONE, 128, 64),
    ("one of four sets before the loop", &SET_ON_TAIL, 384, 192),
    ("four sets, back to 0 between them", &PETALS, 1920, 960),
];

// Runs the cases, each in buffers of its own.
fn each(rt: &impl Print, cases: &[Case], rest: Rest) -> io::Result<()> {
    for case in cases {
        line_of(rt, *case, RISING, rest)?;
    }
    Ok(())
}

// Searches in the same buffers, one after another: what they have before a search is of no account to its answer.
fn in_turn(
    rt: &impl Print,
    cases: &[(&str, &[u8])],
    work: &mut [u32],
    report: &mut [u32],
) -> io::Result<()> {
    let mut lent = Lent::filled(work, report, RISING);
    for &(name, table) in cases {
        lent.line(rt, name, table, Rest::Whole)?;
    }
    Ok(())
}

// The same where the buffers have one word throughout.
fn over_one_word(rt: &impl Print) -> io::Result<()> {
    let cases: &[(&str, &[u8], usize, usize, u32)] = &[
        ("j over 0", &J, 130, 70, 0),
        ("j over 1", &J, 130, 70, 1),
        ("j over 4294967295", &J, 130, 70, 4294967295),
        ("i over 1", &I, 90, 50, 1),
        ("i over 4294967295", &I, 90, 50, 4294967295),
        ("b over 1", &B, 90, 50, 1),
        ("b over 4294967295", &B, 90, 50, 4294967295),
    ];
    for &(name, table, w, r, word) in cases {
        let throughout = Pattern {
            first: word,
            step: 0,
        };
        line_of(rt, (name, table, w, r), throughout, Rest::Kept)?;
    }
    Ok(())
}

// The ring of 64 states, the most that a table has. docs/RULES.md, "The table file". S is 8,320.
fn ring(rt: &impl Print) -> io::Result<()> {
    // Goal 63.
    let goal = cases::with(RING, &[(607, 2)]);
    let cases: &[Case] = &[
        ("ring of 64", &RING, 16640, 8320),
        ("ring of 64", &RING, 16700, 8400),
        ("ring of 64", &RING, 16639, 8320),
        ("ring of 64", &RING, 16640, 8319),
        ("ring of 64, goal at the last", &goal, 16640, 8320),
    ];
    each(rt, cases, Rest::Kept)
}

fn main(rt: HostRuntime) -> io::Result<()> {
    each(&rt, BY_HAND, Rest::Whole)?;
    each(&rt, LENGTHS, Rest::Kept)?;
    // The second finds no lasso, and leaves the report of the first.
    in_turn(
        &rt,
        &[("j first", &J), ("b second", &B), ("i third", &I)],
        &mut [0; 200],
        &mut [0; 64],
    )?;
    // Each search needs more words than the one before it.
    in_turn(
        &rt,
        &[("c first", &C), ("e second", &E), ("g third", &G)],
        &mut [0; 100],
        &mut [0; 50],
    )?;
    over_one_word(&rt)?;
    // With as many words as tables a and b need; with fewer, and with none.
    for (w, r) in [(80, 40), (79, 39), (0, 0)] {
        for &(name, table) in cases::REFUSED {
            line_of(&rt, (name, table, w, r), RISING, Rest::Kept)?;
        }
    }
    each(&rt, SLIPS, Rest::Kept)?;
    ring(&rt)
}

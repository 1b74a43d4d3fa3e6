// Cases of a translation, one line each, held to the file `stdout`. docs/RULES.md, "Translated table", "Refusal list" and "Tables by hand".
#![tactic(auto)]

mod show;

use samples::{
    A, ALL_IN_ONE, B, C, D, E, F, G, GOAL_AT_ONE_START, H, I, J, K, L, NINE, PETALS, RING,
    RING_OF_SETS, SET_ON_THE_TAIL,
};
use show::{BEFORE, Case, End, line, line_of};
use std::io;

// The twelve tables of docs/RULES.md, "Tables by hand", each with an output of exactly its size.
const BY_HAND: &[Case] = &[
    ("a", &A, 616),
    ("b", &B, 424),
    ("c", &C, 76),
    ("d", &D, 76),
    ("e", &E, 344),
    ("f", &F, 280),
    ("g", &G, 528),
    ("h", &H, 188),
    ("i", &I, 472),
    ("j", &J, 1004),
    ("k", &K, 76),
    ("l", &L, 736),
];

// Line 11 of "Refusal list": table a takes 616 bytes, c takes 76, l takes 736 and j takes 1,004. Then longer outputs: exactly the first 32 + 5S + 4E
// bytes change.
const LENGTHS: &[Case] = &[
    ("a", &A, 615),
    ("a", &A, 0),
    ("a", &A, 1),
    ("a", &A, 616),
    ("a", &A, 617),
    ("c", &C, 75),
    ("c", &C, 76),
    ("c", &C, 77),
    ("l", &L, 735),
    ("j", &J, 1003),
    ("a", &A, 700),
    ("c", &C, 100),
    ("j", &J, 1100),
    ("l", &L, 1000),
];

// Two starts, of which one has the goal.
const TWO_STARTS: &[Case] = &[("goal at one of two starts", &GOAL_AT_ONE_START, 188)];

// All four sets.
const SETS: &[Case] = &[
    ("one state in four sets", &ALL_IN_ONE, 736),
    ("one state in four sets", &ALL_IN_ONE, 735),
    ("one state in four sets", &ALL_IN_ONE, 745),
    ("ring of four sets", &RING_OF_SETS, 6304),
    ("ring of four sets", &RING_OF_SETS, 6303),
    ("ring of four sets", &RING_OF_SETS, 6313),
    ("one of four sets before the loop", &SET_ON_THE_TAIL, 2016),
    ("one of four sets before the loop", &SET_ON_THE_TAIL, 2015),
    ("one of four sets before the loop", &SET_ON_THE_TAIL, 2025),
    ("four sets, back to 0 between them", &PETALS, 12000),
    ("four sets, back to 0 between them", &PETALS, 11999),
    ("four sets, back to 0 between them", &PETALS, 12009),
];

// Runs the cases, each in the first bytes of the room.
fn each(rt: &impl Print, cases: &[Case], room: &mut [u8], end: End) -> io::Result<()> {
    for case in cases {
        line_of(rt, *case, room, end)?;
    }
    Ok(())
}

// Translations into one output, one after another. docs/RULES.md, "Buffers": each changes only its own bytes, and a refused one changes none.
fn one_output(rt: &impl Print) -> io::Result<()> {
    let mut out = [0; 1004];
    let wrong_n = cases::with(A, &[(4, 65)]);
    BEFORE.fill(&mut out);
    line(rt, "j first", &J, &mut out, End::Kept)?;
    line(rt, "c over j", &C, &mut out, End::Whole)?;
    line(rt, "n 65 over both", &wrong_n, &mut out, End::Whole)?;
    line(rt, "a over all", &A, &mut out, End::Whole)
}

// The nine states take 64,256 bytes: the 65,536 of the program `translate` are enough. The ring takes 75,424, and with three sets 603,168: there S is
// 66,560 and E is 67,584, and numbers take three bytes.
fn large(rt: &impl Print, room: &mut [u8]) -> io::Result<()> {
    // Goal 63.
    let goal = cases::with(RING, &[(607, 2)]);
    // m 3, set 0 = {1, 2}, set 1 = {2}, set 2 = {62}.
    let sets = cases::with(goal, &[(12, 3), (545, 4), (546, 12), (606, 16)]);
    let cases: &[Case] = &[
        ("nine states, all edges", &NINE, 65536),
        ("nine states, all edges", &NINE, 64256),
        ("nine states, all edges", &NINE, 64255),
        ("ring of 64", &RING, 65536),
        ("ring of 64", &RING, 75424),
        ("ring of 64, goal at the last", &goal, 75424),
        ("ring of 64, three sets", &sets, 603167),
        ("ring of 64, three sets", &sets, 603168),
        ("ring of 64, three sets", &sets, 603200),
    ];
    each(rt, cases, room, End::Sums)
}

// In `main` itself each slice of the array would be a goal over all its zeros, more than the check can compute.
fn run(rt: &impl Print, room: &mut [u8; 603200]) -> io::Result<()> {
    each(rt, BY_HAND, room, End::Whole)?;
    each(rt, LENGTHS, room, End::Kept)?;
    one_output(rt)?;
    // With as many bytes as table a needs; with one fewer, and with none.
    for n in [616, 615, 0] {
        for &(name, table) in cases::REFUSED {
            line_of(rt, (name, table, n), room, End::Kept)?;
        }
    }
    each(rt, TWO_STARTS, room, End::Whole)?;
    each(rt, SETS, room, End::Sums)?;
    large(rt, room)
}

fn main(rt: HostRuntime) -> io::Result<()> {
    run(&rt, &mut [0; 603200])
}

// Runs cases of the table's own lines of the refusal list, and of the quote sheet, and prints a line for each: what the table opens as, or its quote.
// docs/RULES.md, "The table file", "Quote sheet", "Refusal list" and "Tables by hand". The file stdout has what they must be.
#![tactic(auto)]

mod made;
mod opened;
mod quoted;

use cases::{Numbers, Refused};
use made::Change::{Mark, Sets};
use made::Made;
use quote::Sheet;
use std::{fmt, io};
use table::{Refusal, Table};

// What is printed in place of a sheet where a table is refused: zeros, as C is told them (docs/RULES.md, "Refusal list").
const ZEROS: Sheet = Sheet {
    slots: 0,
    edges: 0,
    bytes: 0,
    members: [0, 0, 0, 0],
    board: Some(0),
};

// A name, and what its bytes are.
type Case<'a> = (&'a str, Made<'a>);

// What a table opens as.
#[derive(Clone, Copy)]
struct Answer(Result<Table, Refusal>);

impl fmt::Display for Answer {
    fn fmt<W: fmt::Write>(&self, f: &mut fmt::Formatter<W>) -> fmt::Result {
        match self.0 {
            Ok(t) => write!(f, "accepted {} {} {}", t.states, t.edges, t.sets),
            Err(why) => write!(f, "{}", Refused(why)),
        }
    }
}

fn open(rt: &impl Print, name: impl fmt::Display + Drop, made: Made) -> io::Result<()> {
    let file = made.file();
    println!(rt; "{name}: {}", Answer(opening::open(file.bytes())))
}

fn open_each(rt: &impl Print, cases: &[Case]) -> io::Result<()> {
    for &(name, made) in cases {
        open(rt, name, made)?;
    }
    Ok(())
}

// Line 8, the mark bits that must be clear: each bit at the first and at the last state of table a, with no sets, with two and with four.
fn open_each_bit(rt: &impl Print) -> io::Result<()> {
    for m in [0, 2, 4] {
        for s in [0, 3] {
            for bit in 0..8u32 {
                let name = format_args!("sets {m}, state {s}, bit {bit}");
                open(rt, name, Made::With(&[Sets(m), Mark(s, 1 << bit)]))?;
            }
        }
    }
    Ok(())
}

fn quote_each(rt: &impl Print, cases: &[Case]) -> io::Result<()> {
    for &(name, made) in cases {
        let file = made.file();
        let quoted = quote::quote(file.bytes());
        let s = quoted.map_or(ZEROS, |q| q.sheet);
        print!(rt;
            "{name}: {}, sheet {} {} {}, ",
            Answer(quoted.map(|q| q.table)),
            s.slots,
            s.edges,
            s.bytes
        )?;
        // 8 for none, as C is told (docs/RULES.md, "Quote sheet").
        let board = s.board.unwrap_or(8);
        println!(rt; "board {board}, members{}", Numbers(&s.members))?;
    }
    Ok(())
}

fn main(rt: HostRuntime) -> io::Result<()> {
    open_each(&rt, opened::HEADS)?;
    open_each(&rt, opened::ROWS)?;
    open_each_bit(&rt)?;
    open_each(&rt, opened::MARKS)?;
    open_each(&rt, opened::TWO_FAULTS)?;
    quote_each(&rt, quoted::BY_HAND)?;
    quote_each(&rt, quoted::BOARDS)?;
    quote_each(&rt, quoted::REFUSED)
}

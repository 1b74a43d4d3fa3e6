// A case: one line with its name and how many words are lent; `lasso` k l and the run, or `holds`, or `refused` number place; then what the buffers
// have.
use cases::{Numbers, Pattern, Refused};
use search::Lasso;
use std::io;

// 100, 101, 102 and so on: no state of a table has such a number.
pub(crate) const RISING: Pattern<u32> = Pattern {
    first: 100,
    step: 1,
};

// A name, a table, and how many words the workspace and the report have.
pub(crate) type Case<'a> = (&'a str, &'a [u8], usize, usize);

// What a line says of the report past the run: how many of its words are as the pattern has them, or all of it. A caller passes it down, as both are
// printed after the search, which is called in one place.
#[derive(Clone, Copy)]
pub(crate) enum Rest {
    Kept,
    Whole,
}

// The two buffers of a search, and the pattern that they had at first.
#[derive(Drop)]
pub(crate) struct Lent<'a> {
    work: &'a mut [u32],
    report: &'a mut [u32],
    before: Pattern<u32>,
}

impl<'a> Lent<'a> {
    pub(crate) fn filled(
        work: &'a mut [u32],
        report: &'a mut [u32],
        before: Pattern<u32>,
    ) -> Lent<'a> {
        before.fill(work);
        before.fill(report);
        Lent {
            work,
            report,
            before,
        }
    }

    // Searches in them, and prints the line: after the answer, the zeros that the workspace begins with, how many words past them are as the
    // pattern has them, and the rest of the report.
    pub(crate) fn line(
        &mut self,
        rt: &impl Print,
        name: &str,
        table: &[u8],
        rest: Rest,
    ) -> io::Result<()> {
        let (w, r) = (self.work.len(), self.report.len());
        print!(rt; "{name}, {w} and {r} words: ")?;
        let taken = match search::search(table, self.work, self.report) {
            Ok(Some(Lasso { k, l })) => {
                // A run of length k has k + 1 states.
                let taken = k.saturating_add(1).min(r);
                print!(rt; "lasso {k} {l}, run{}", Numbers(&self.report[..taken]))?;
                taken
            }
            Ok(None) => {
                print!(rt; "holds")?;
                0
            }
            Err(why) => {
                print!(rt; "{}", Refused(why))?;
                0
            }
        };
        let zeros = self.work.iter().take_while(|x| **x == 0).count();
        let kept = self.before.kept(self.work, zeros);
        print!(rt; ", zeros {zeros} kept {kept}")?;
        match rest {
            Rest::Kept => {
                let kept = self.before.kept(self.report, taken);
                println!(rt; ", report kept {kept}")
            }
            Rest::Whole => println!(rt; ", rest of the report{}", Numbers(&self.report[taken..])),
        }
    }
}

// The line of a case, in buffers of its own with w and r words; the arrays are that long.
pub(crate) fn line_of(
    rt: &impl Print,
    (name, table, w, r): Case,
    before: Pattern<u32>,
    rest: Rest,
) -> io::Result<()> {
    let mut work = [0; 16740];
    let mut report = [0; 8420];
    if let (Some(work), Some(report)) = (work.get_mut(..w), report.get_mut(..r)) {
        Lent::filled(work, report, before).line(rt, name, table, rest)?;
    }
    Ok(())
}

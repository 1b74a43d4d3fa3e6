// Parts of a case's line.
ghost use Rattle.std.specs.Prelude.{Some};
ghost use Rattle.cases.specs.Printed.{refused_text, spaced};

use std::fmt;
use table::Refusal;

// A refusal: its number, and its place, 0 where the list names none. The crate `lines` puts the same text into a lent buffer, where nothing can fail.
#[derive(Drop)]
pub struct Refused(pub Refusal);

impl fmt::Display for Refused {
    ghost output = { λ refused. Some (refused_text refused.0) };

    #[tactic(auto, unfolding(crate::specs::Printed::refused_text))]
    fn fmt<W: fmt::Write>(&self, f: &mut fmt::Formatter<W>) -> fmt::Result {
        write!(f, "refused {} {}", self.0.number(), self.0.place())
    }
}

// Numbers, each with a space before it.
#[derive(Drop)]
pub struct Numbers<'a, T>(pub &'a [T]);

impl<T: fmt::Display> fmt::Display for Numbers<'_, T> {
    ghost output = { λ numbers. spaced T.output numbers.0.now };

    #[tactic(auto, unfolding(crate::specs::Printed::spaced))]
    fn fmt<W: fmt::Write>(&self, f: &mut fmt::Formatter<W>) -> fmt::Result {
        for x in self.0 {
            write!(f, " {x}")?;
        }
        Ok(())
    }
}

// What the programs of the cases share: how a refusal and a list of numbers are printed, what a lent buffer has before a call, tables with some bytes
// changed, and the refused tables.
#![tactic(auto)]

mod changed;
mod pattern;
mod print;
mod refused;

pub use changed::with;
pub use pattern::Pattern;
pub use print::{Numbers, Refused};
pub use refused::REFUSED;

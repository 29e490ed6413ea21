// What the cases of recovery say in bytes: the kind, by its number, and the hints on a word. Nothing here allocates.
#![tactic(auto)]

mod kinds;
mod readers;
mod splits;

pub use kinds::{Work, with_kind};
pub use readers::{Hint, HintReader};
pub use splits::split;

// What the checking programs share: a generator of numbers and plans of codes, a check sum, every word of four symbols, and the
// numbers of a line.
#![tactic(auto)]

mod checksum;
mod kinds;
mod lines;
mod plan;
mod random;
mod words;

pub use checksum::Checksum;
pub use kinds::{Visit, each_kind};
pub use lines::numbers;
pub use plan::Plan;
pub use random::{Drawn, Random};
pub use words::each_word;

// Hints on where a word is wrong, and the splitting of a difference by them. That hints stand for given ones, `Holds`, is a premise of what is
// promised with them: it joins a value of no kind with rows over the elements of one, which no ghost field can say.
#![tactic(auto)]

mod block;
mod holder;
mod not_taken;
mod parts;
mod splitting;
mod taking;

pub use block::BlockHints;
pub use holder::Hints;
pub use not_taken::NotTaken;
pub use parts::Parts;
pub use splitting::{element_of, least_splitting, padded_row};

// A station: one code at a time, a word of it with hints, and what was recovered, driven by calls in any order.
#![tactic(auto)]

mod answers;
mod calls;
mod judging;
mod plan;
mod replaying;
mod reporting;
mod state;
mod station;
mod tally;
mod writing;

pub use answers::{Answer, Counts};
pub use calls::Call;
pub use replaying::replay;
pub use station::Station;
pub use tally::Tally;

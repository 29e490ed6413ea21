// Exact decoding with row and column hints, over any kind of field.
#![tactic(auto)]

mod direct;
mod killing;
mod outcome;
mod powers;
mod prepared;
mod preparing;
mod recovering;
mod remains;
mod spots;

pub use direct::recover_by;
pub use outcome::Recovery;
pub use prepared::Prepared;
pub use preparing::prepare;
pub use recovering::recover;
pub use spots::Spots;

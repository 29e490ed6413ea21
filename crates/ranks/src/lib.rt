// Rank and weight over any kind of field, conjugate parameters, and the minimum distance.
#![tactic(auto)]

mod conjugacy;
mod distance;
mod ranks;
mod rows;
mod weights;

pub use conjugacy::conjugate;
pub use distance::minimum_distance;
pub use ranks::{dependent_at, rank, ranks_stand};
pub use rows::{Form, Row, WIDTH, cleared};
pub use weights::weight;

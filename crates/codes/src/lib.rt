// Linearized Reed-Solomon codes over any kind of field: the sheet that describes one, the code that it makes, and what is done
// with a code. Kind and code are two arguments: one struct of both would say nothing that a clause does not, and with lawfulness as a fact of it ask more of callers.
#![tactic(auto)]

mod dualizing;
mod duals;
mod encoding;
mod lists;
mod making;
mod shape;
mod syndrome;
mod writing;

pub use dualizing::{dual, dual_sheet};
pub use duals::{dual_locators, duals_stand};
pub use encoding::{encode, message};
pub use lists::{Course, ROOM, SheetBytes, Symbols};
pub use making::{faults_stand, set_up};
pub use shape::Code;
pub use syndrome::{product_sum, syndromes};
pub use writing::{byte, write_sheet};

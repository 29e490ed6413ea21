// The sheet that describes a code: its reader, and the refusals of every layer.
#![tactic(auto)]

mod faults;
mod sections;
mod sheets;

pub use faults::{Fault, Layer, Reason};
pub use sections::Section;
pub use sheets::{Sheet, read_front, read_sheet, sheets_stand};

// What several programs show: numbers and points in a row, lines, and the two codes that all documents use.
#![tactic(auto)]

mod documents;
mod lines;
mod rows;

pub use documents::{DAMAGE, MESSAGE, SECOND_SHEET, SHEET, damaged};
pub use lines::{Listed, found, line, refused};
pub use rows::{Places, Row};

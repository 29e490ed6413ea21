// Jobs: a sheet, a word and hints on it in one string of bytes, read as a whole before anything is judged by the code.
#![tactic(auto)]

mod answering;
mod job;
mod outcome;
mod reading;
mod running;
mod sections;
mod text;

pub use answering::answer;
pub use job::Job;
pub use outcome::Recovered;
pub use reading::{jobs_stand, read_job};
pub use running::run;
pub use sections::Section;
pub use text::{ROOM, Text, write};

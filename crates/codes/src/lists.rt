// The lists of fixed capacity of which a code and its sheet are made.
use skew::{Few, Point};

// How many symbols fit.
pub const ROOM: usize = 24;

// How many bytes fit; the longest sheet has 53.
pub const SPACE: usize = 64;

pub type Symbols = Few<u8, ROOM>;

pub type Course = Few<Point, ROOM>;

pub type SheetBytes = Few<u8, SPACE>;

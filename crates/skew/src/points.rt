// Where polynomials are read.

// More points than these are refused.
pub const MOST: usize = 24;

// A parameter and a locator.
#[derive(Clone, Copy, PartialEq, Eq, Debug, Default)]
pub struct Point {
    pub parameter: u8,
    pub locator: u8,
}

// A parameter, a locator, and a second value beside it.
#[derive(Clone, Copy, PartialEq, Eq, Debug, Default)]
pub struct Site {
    pub parameter: u8,
    pub locator: u8,
    pub second: u8,
}

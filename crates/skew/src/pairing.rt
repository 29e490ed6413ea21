// Two pairs of polynomials, as `pairs` carries them from site to site.
use super::polynomial::Polynomial;

// One polynomial for the locators, and one for the second values.
#[derive(Clone, Copy)]
pub struct Pair {
    pub q0: Polynomial,
    pub q1: Polynomial,
}

// Pair A, with the degree a of its q0, and pair B, with the degree b of its q1.
#[derive(Clone, Copy)]
pub struct TwoPairs {
    pub first: Pair,
    pub second: Pair,
    pub a: usize,
    pub b: usize,
}

// What a site asks for: nothing, or that one of the pairs is the pivot.
#[derive(Clone, Copy, PartialEq, Eq, Debug)]
pub enum Turn {
    Stay,
    First,
    Second,
}

// What is prepared once for a code of dimension k, so that words without hints are recovered with less work. The struct stands alone in its
// file, since specs name it; that it belongs to a code is a predicate there, which `prepare` promises.
ghost use Rattle.std.specs.Prelude.{◌≡◌, length};

use codes::Symbols;
use skew::Polynomial;

#[derive(Clone, Copy)]
pub struct Prepared {
    // of degree k, and zero at the first k points
    pub top: Polynomial,
    // what that is at each point
    pub values: Symbols,
    // polynomial j is one at point j and zero at the others of the first k points; fixed memory, and the code knows k
    pub units: [Polynomial; 24],
    // what the coefficients of a polynomial meet at each point
    pub powers: [Symbols; 24],
    ghost whole: { length units ≡ 24 },
    ghost points: { length powers ≡ 24 },
}

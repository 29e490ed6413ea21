// What is recovered. The struct stands alone in its file, since specs name it.
ghost use Rattle.std.specs.Prelude.{◌≤◌};

use codes::Symbols;
use hints::Parts;
use skew::Polynomial;

#[derive(Clone, Copy)]
pub struct Recovery {
    pub codeword: Symbols,
    pub message: Polynomial,
    pub parts: Parts,
    // the weight of the full part
    pub errors: usize,
    ghost few: { errors ≤ 12 },
}

// Skew polynomials over a kind of field. Coefficients stand lowest first.
#![tactic(auto)]

ghost use Rattle.std.specs.Prelude.{◌≡◌};
ghost use Rattle.fields.specs.Elements.{ops};
ghost use Rattle.skew.specs.Values.{value_code, eval_code};
ghost use Rattle.skew.specs.Roots.{RootCount};

use fields::Kind;

mod annihilators;
mod arithmetic;
mod engine;
mod few;
mod newton;
mod pairing;
mod points;
mod polynomial;
mod quotients;

pub use annihilators::annihilator;
pub use arithmetic::{combine, product};
pub use engine::pairs;
pub use few::Few;
pub use newton::{interpolate, unit};
pub use pairing::{Pair, TwoPairs};
pub use points::{MOST, Point, Site};
pub use polynomial::{CAPACITY, Polynomial};
pub use quotients::left_quotient;

// The value of the polynomial f at a locator with a parameter: the sum over i of f_i × (locator twisted i times) ×
// N(i, parameter), counted from 0. `steps` says the same by the recursion that proofs use.
pub fn value<K: Kind>(kind: &K, f: &[u8], parameter: u8, locator: u8) -> u8
    ensures sum { let m = K.meaning kind.now in result ≡ value_code m f.now parameter locator }
    ensures steps { let m = K.meaning kind.now in result ≡ eval_code m f.now parameter locator }
{
    let mut total = 0;
    let mut x = locator;
    for c in f {
        total = kind.sum(total, kind.product(*c, x));
        x = kind.product(kind.twist(x), parameter);
    }
    total
}

// A polynomial with at most n coefficients that vanishes at n lawful locators is zero: a theorem, which this contract asks for.
pub fn root_count<K: Kind>(kind: &K) -> u8
    ensures { RootCount (ops (K.meaning kind.now)) }
{
    0
}

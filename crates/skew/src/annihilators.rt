// Polynomials that vanish at given points.
ghost use Rattle.std.specs.Prelude.{◌≡◌, ◌≢◌, ◌+◌, ◌<◌, [], ◌∷◌, length, MatchOption};
ghost use Rattle.fields.specs.Elements.{elem, elems, codes, ops};
ghost use Rattle.skew.specs.Polynomials.{coefficients};
ghost use Rattle.skew.specs.Annihilators.{Annihilated, Root, Grown};

use super::arithmetic::product;
use super::points::{MOST, Point};
use super::polynomial::Polynomial;
use super::value;
use fields::Kind;

// The c for which x - c takes v to zero at the parameter; nothing where v counts as 0.
pub fn root<K: Kind>(kind: &K, parameter: u8, v: u8) -> Option<u8>
    ensures { let m = K.meaning kind.now in MatchOption result (elem m v ≡ (ops m).zero) (λ c. (elem m v ≢ (ops m).zero) × Root m parameter v c) }
{
    let inverse = kind.inverse(v)?;
    let twisted = kind.twist(v);
    let step = kind.product(twisted, parameter);
    Some(kind.product(step, inverse))
}

// The polynomial x - c.
fn linear<K: Kind>(kind: &K, c: u8) -> Polynomial
    ensures { let m = K.meaning kind.now in coefficients result ≡ codes ((ops m).neg (elem m c) ∷ (ops m).one ∷ []) }
{
    let mut out = Polynomial::empty();
    out.push(kind.opposite(c));
    out.push(1);
    out
}

// base, multiplied from the left by the x - c that makes it zero at the point; base itself where it is zero there
// already. Nothing where there is no room for one coefficient more.
pub fn grow<K: Kind>(kind: &K, base: &Polynomial, point: Point) -> Option<Polynomial>
    ensures { let m = K.meaning kind.now in let g = coefficients base.now in MatchOption result (47 < length g) (λ f. Grown m g point (coefficients f)) }
{
    let v = value(kind, base.as_slice(), point.parameter, point.locator);
    match root(kind, point.parameter, v) {
        Some(c) => product(kind, &linear(kind, c), base),
        None => Some(*base),
    }
}

// A polynomial with leading coefficient 1 and degree at most the number of points that vanishes at each point, and so at
// every combination with fixed coefficients of points that share a parameter; and all that vanishes at the points is a multiple
// of it. Nothing for more than 24 points.
pub fn annihilator<K: Kind>(kind: &K, points: &[Point]) -> Option<Polynomial>
    ensures { let m = K.meaning kind.now in let ps = points.now in MatchOption result (24 < length ps) (λ f. Annihilated m ps (coefficients f)) }
{
    if points.len() > MOST {
        return None;
    }
    let mut out = Polynomial::empty();
    out.push(1);
    for p in points {
        out = grow(kind, &out, *p)?;
    }
    Some(out)
}

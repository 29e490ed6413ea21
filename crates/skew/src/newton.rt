// The polynomial with given values at given points, one point after the other.
ghost use Rattle.std.specs.Prelude.{◌≡◌, ◌<◌, ◌≤◌, ◌≢◌, ◌⊎◌, length, MatchOption};
ghost use Rattle.fields.specs.Elements.{elem, elems, ops};
ghost use Rattle.skew.specs.Polynomials.{coefficients};
ghost use Rattle.skew.specs.Roots.{at, Vanishes};
ghost use Rattle.skew.specs.Annihilators.{place};
ghost use Rattle.skew.specs.Interpolation.{Stuck, Interpolated, Corrected, indicator};

use super::annihilators::grow;
use super::arithmetic::combine;
use super::points::{MOST, Point};
use super::polynomial::Polynomial;
use super::value;
use fields::Kind;

// f, changed by a multiple of base so that its value at the point is the one wanted. Nothing where base vanishes there
// and f has another value.
fn correct<K: Kind>(
    kind: &K,
    f: &Polynomial,
    base: &Polynomial,
    point: Point,
    wanted: u8,
) -> Option<Polynomial>
    ensures { let m = K.meaning kind.now in let f = coefficients f.entry.now in let g = coefficients base.now in
        MatchOption result (Vanishes (ops m) (elems m g) (place m point) × (at (ops m) (elems m f) (place m point) ≢ elem m wanted)) (λ h. Corrected m f g point wanted (coefficients h)) }
{
    let here = value(kind, f.as_slice(), point.parameter, point.locator);
    let there = value(kind, base.as_slice(), point.parameter, point.locator);
    let minus = kind.opposite(here);
    let gap = kind.sum(wanted, minus);
    match kind.inverse(there) {
        Some(inverse) => {
            let c = kind.product(gap, inverse);
            Some(combine(kind, 1, f, c, base))
        }
        None if gap == 0 => Some(*f),
        None => None,
    }
}

// The polynomial with these values at these points, with at most as many coefficients as there are points. For lawful
// points there is always one, and no other. Nothing for more than 24 points, for more or fewer values than points, and
// where no polynomial at all has these values at these points, which are not lawful then.
pub fn interpolate<K: Kind>(kind: &K, points: &[Point], values: &[u8]) -> Option<Polynomial>
    ensures { let m = K.meaning kind.now in let ps = points.now in let vs = values.now in
        MatchOption result ((24 < length ps) ⊎ ((length vs ≢ length ps) ⊎ Stuck m ps vs)) (λ f. Interpolated m ps vs (coefficients f)) }
{
    if points.len() > MOST {
        return None;
    }
    if values.len() != points.len() {
        return None;
    }
    let mut f = Polynomial::empty();
    let mut base = Polynomial::empty();
    base.push(1);
    for (p, v) in points.iter().zip(values) {
        f = correct(kind, &f, &base, *p, *v)?;
        base = grow(kind, &base, *p)?;
    }
    Some(f)
}

// The polynomial that is 1 at point i and 0 at the others, with at most as many coefficients as there are points. Nothing for more
// than 24 points, where there is no point i, and where no polynomial at all is so, the points being not lawful then.
pub fn unit<K: Kind>(kind: &K, points: &[Point], i: usize) -> Option<Polynomial>
    ensures { let m = K.meaning kind.now in let ps = points.now in
        MatchOption result ((24 < length ps) ⊎ ((length ps ≤ i) ⊎ Stuck m ps (indicator (length ps) i))) (λ f. (i < length ps) × Interpolated m ps (indicator (length ps) i) (coefficients f)) }
{
    if points.len() > MOST || i >= points.len() {
        return None;
    }
    let mut values = [0; MOST];
    values[i] = 1;
    interpolate(kind, points, &values[..points.len()])
}

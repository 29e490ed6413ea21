// Division on the left.
ghost use Rattle.std.specs.Prelude.{MatchOption};
ghost use Rattle.std.specs.List.{AllByRecursion};
ghost use Rattle.fields.specs.Field.{Zero};
ghost use Rattle.fields.specs.Elements.{elems, ops};
ghost use Rattle.skew.specs.Polynomials.{coefficients};
ghost use Rattle.skew.specs.Quotients.{Divided, Undivided, Leads, Untwisted};

use super::polynomial::{CAPACITY, Polynomial};
use fields::{Kind, code};

// The degree of a polynomial, and the inverse of its coefficient there.
#[derive(Clone, Copy, PartialEq, Eq, Debug)]
struct Lead {
    degree: usize,
    inverse: u8,
}

// Nothing where the polynomial is zero.
fn leading<K: Kind>(kind: &K, f: &Polynomial) -> Option<Lead>
    ensures { let m = K.meaning kind.now in let f = coefficients f.entry.now in
        MatchOption result (AllByRecursion (Zero (ops m)) (elems m f)) (λ t. Leads m f t.degree t.inverse) }
{
    // from the top, and by degree, which is answered
    for i in (0..f.len()).rev() {
        if let Some(inverse) = kind.inverse(f.get(i)) {
            return Some(Lead { degree: i, inverse });
        }
    }
    None
}

// The element that n twists take to x.
fn untwisted<K: Kind>(kind: &K, n: usize, x: u8) -> u8
    ensures { let m = K.meaning kind.now in Untwisted m n x result }
{
    let mut y = code(kind, x);
    for _ in 0..n {
        y = kind.untwist(y);
    }
    y
}

// The k coefficients q for which dividend and divisor × q agree at places d to d + k - 1, where d is the degree of the
// divisor: there is one such q. Nothing where the divisor is zero, or d + k is more than 48.
pub fn left_quotient<K: Kind>(
    kind: &K,
    dividend: &Polynomial,
    divisor: &Polynomial,
    k: usize,
) -> Option<Polynomial>
    ensures { let m = K.meaning kind.now in let n = coefficients dividend.now in let p = coefficients divisor.now in
        MatchOption result (Undivided m p k) (λ f. Divided m n p k (coefficients f)) }
{
    let top = leading(kind, divisor)?;
    let d = top.degree;
    if d.saturating_add(k) > CAPACITY {
        return None;
    }
    let mut rest = dividend.resized(d + k);
    let mut out = Polynomial::empty().resized(k);
    // from the top, and by degree: two polynomials are met at places that the degree of the divisor parts
    for j in (0..k).rev() {
        let high = rest.get(d + j);
        let ratio = kind.product(high, top.inverse);
        let c = untwisted(kind, d, ratio);
        rest.add(kind, divisor, j, kind.opposite(c));
        out.put(j, c);
    }
    Some(out)
}

// Sums and products of polynomials.
ghost use Rattle.std.specs.Prelude.{◌≡◌, ◌+◌, ◌<◌, length, MatchOption};
ghost use Rattle.fields.specs.Elements.{codes};
ghost use Rattle.skew.specs.Polynomials.{coefficients, combined, Multiplied};

use super::polynomial::{CAPACITY, Polynomial};
use fields::Kind;

// c times f plus d times g, as long as the longer of the two.
pub fn combine<K: Kind>(kind: &K, c: u8, f: &Polynomial, d: u8, g: &Polynomial) -> Polynomial
    ensures { let m = K.meaning kind.now in coefficients result ≡ codes (combined m c (coefficients f.now) d (coefficients g.now)) }
{
    let mut out = *f;
    out.cross(kind, c, d, g);
    out
}

// The product of f and g: coefficient l is the sum over i + j = l of f_i × (g_j twisted i times). Nothing, where that
// has more than 48 coefficients.
pub fn product<K: Kind>(kind: &K, f: &Polynomial, g: &Polynomial) -> Option<Polynomial>
    ensures { let m = K.meaning kind.now in let f = coefficients f.entry.now in let g = coefficients g.entry.now in
        MatchOption result (49 < length f + length g) (λ p. Multiplied m f g (coefficients p)) }
{
    if f.len() + g.len() > CAPACITY + 1 {
        return None;
    }
    let mut sum = Polynomial::empty().resized((f.len() + g.len()).saturating_sub(1));
    for (j, c) in g.as_slice().iter().enumerate() {
        sum.add(kind, f, j, *c);
    }
    Some(sum)
}

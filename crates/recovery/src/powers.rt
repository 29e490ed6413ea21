// Values of polynomials by powers that are made once for a point.
ghost use Rattle.std.specs.Prelude.{◌≡◌, ℕ, ◌<◌, ◌≤◌, length, slice_index_or};
ghost use Rattle.fields.specs.Elements.{elem, elems, codes, ops};
ghost use Rattle.skew.specs.declared.few.Few.{Few};
ghost use Rattle.skew.specs.Polynomials.{coefficients};
ghost use Rattle.codes.specs.Holdings.{held, stops};
ghost use Rattle.codes.specs.Codes.{word_of};
ghost use Rattle.recovery.specs.Preparation.{stepped, Stepped, Prepares};

use super::prepared::Prepared;
use codes::{Code, ROOM, Symbols, product_sum};
use fields::Kind;
use skew::{Point, Polynomial};

// What the coefficients of a polynomial meet at a point: the locator, and then each time the one before, twisted, times the parameter.
pub fn powers_at<K: Kind>(kind: &K, point: Point) -> Symbols
    ensures { let m = K.meaning kind.now in elems m (held result) ≡ stepped (ops m) (elem m point.parameter) (elem m point.locator) 24 }
{
    let mut out = Symbols::empty();
    let mut x = point.locator;
    for _ in 0..ROOM {
        out.push(x);
        x = kind.product(kind.twist(x), point.parameter);
    }
    out
}

// The same of two points, side by side: each power waits for the one before, and so what is made for one does not wait for the other.
pub fn powers_at_both<K: Kind>(kind: &K, p: Point, q: Point) -> (Symbols, Symbols)
    ensures first { let m = K.meaning kind.now in elems m (held result.0) ≡ stepped (ops m) (elem m p.parameter) (elem m p.locator) 24 }
    ensures second { let m = K.meaning kind.now in elems m (held result.1) ≡ stepped (ops m) (elem m q.parameter) (elem m q.locator) 24 }
{
    let mut first = Symbols::empty();
    let mut second = Symbols::empty();
    let mut x = p.locator;
    let mut y = q.locator;
    for _ in 0..ROOM {
        first.push(x);
        second.push(y);
        x = kind.product(kind.twist(x), p.parameter);
        y = kind.product(kind.twist(y), q.parameter);
    }
    (first, second)
}

// What the coefficients of a polynomial meet at each of at most 24 points.
pub fn powers_of<K: Kind>(kind: &K, points: &[Point]) -> [Symbols; 24]
    requires { length points.now ≤ 24 }
    ensures size { length result ≡ 24 }
    ensures each { let m = K.meaning kind.now in
        ((d : Few ℕ 24) (i : ℕ) → i < length points.now → Stepped m points.now i (slice_index_or result i d)) }
{
    let n = points.len();
    let mut powers = [Symbols::empty(); 24];
    for j in 0..n / 2 {
        let (first, second) = powers_at_both(kind, points[2 * j], points[2 * j + 1]);
        powers[2 * j] = first;
        powers[2 * j + 1] = second;
    }
    if n % 2 == 1 {
        powers[n - 1] = powers_at(kind, points[n - 1]);
    }
    powers
}

// The codeword of a message, by the powers that were prepared.
pub fn encode_by<K: Kind>(
    kind: &K,
    code: &Code,
    prepared: &Prepared,
    message: &Polynomial,
) -> Symbols
    ensures size { length (held result) ≡ length (stops code.now.course) }
    ensures exact { let m = K.meaning kind.now in let c = code.now in let f = coefficients message.now in
        (Prepares m c prepared.now → length f ≤ 24 → held result ≡ codes (word_of m c (elems m f))) }
{
    let n = code.course.len();
    let mut out = Symbols::empty();
    for powers in &prepared.powers[..n] {
        let symbol = product_sum(kind, message.as_slice(), powers);
        out.push(symbol);
    }
    out
}

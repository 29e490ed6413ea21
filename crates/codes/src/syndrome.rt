// Syndromes.
ghost use Rattle.std.specs.Prelude.{◌≡◌, ◌<◌, ◌≢◌, ◌⊎◌, length, take, MatchOption};
ghost use Rattle.fields.specs.Field.{comb};
ghost use Rattle.fields.specs.Elements.{elems, codes, ops};
ghost use Rattle.codes.specs.Holdings.{held};
ghost use Rattle.codes.specs.DualAnswers.{Checked, advanced};

use super::duals::scaled;
use super::lists::{ROOM, Symbols};
use fields::Kind;
use skew::Point;

// The sum of the products, place by place, as far as both reach.
pub fn product_sum<K: Kind>(kind: &K, word: &[u8], terms: &Symbols) -> u8
    ensures { let m = K.meaning kind.now in result ≡ (comb (ops m) (elems m word.now) (elems m (held terms.now))).code }
{
    let mut total = 0;
    for (x, t) in word.iter().zip(terms.as_slice()) {
        let term = kind.product(*x, *t);
        total = kind.sum(total, term);
    }
    total
}

// Each term times the parameter of its place, untwisted: the terms of the next syndrome.
fn advance<K: Kind>(kind: &K, points: &[Point], terms: &Symbols) -> Symbols
    requires { length (held terms.now) ≡ length points.now }
    ensures { let m = K.meaning kind.now in held result ≡ take 24 (codes (advanced m points.now (elems m (held terms.now)))) }
{
    let mut out = Symbols::empty();
    for (p, t) in points.iter().zip(terms.as_slice()) {
        let grown = kind.product(*t, p.parameter);
        let next = kind.untwist(grown);
        out.push(next);
    }
    out
}

// The n - k syndromes of a word, where n is the number of points: syndrome j, for j from 1, is the sum over the places of
// symbol × (dual locator untwisted j - 1 times) × N(j - 1, untwisted parameter), N taken in the mirror. For lawful points
// and their dual locators, all are 0 exactly where the word is a codeword of dimension k. Nothing for more than 24
// points, for more or fewer dual locators or symbols than points, and for a k above n.
pub fn syndromes<K: Kind>(
    kind: &K,
    points: &[Point],
    duals: &[u8],
    k: usize,
    word: &[u8],
) -> Option<Symbols>
    ensures { let m = K.meaning kind.now in let ps = points.now in let ds = duals.now in let w = word.now in
        MatchOption result ((24 < length ps) ⊎ ((length ds ≢ length ps) ⊎ ((length w ≢ length ps) ⊎ (length ps < k)))) (λ s. Checked m ps ds k w (held s)) }
{
    let n = points.len();
    if n > ROOM {
        return None;
    }
    if duals.len() != n {
        return None;
    }
    if word.len() != n {
        return None;
    }
    if k > n {
        return None;
    }
    let mut terms = scaled(kind, 1, duals);
    let mut out = Symbols::empty();
    for _ in 0..n - k {
        let s = product_sum(kind, word, &terms);
        out.push(s);
        terms = advance(kind, points, &terms);
    }
    Some(out)
}

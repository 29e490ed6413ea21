// The dual of a code, and its locators.
ghost use Rattle.std.specs.Prelude.{◌≡◌, ◌<◌, ◌≤◌, ◌⊎◌, length, take, MatchOption};
ghost use Rattle.fields.specs.Field.{mirror, scale};
ghost use Rattle.fields.specs.Mirror.{mirrored};
ghost use Rattle.fields.specs.Elements.{elem, elems, codes, ops};
ghost use Rattle.skew.specs.Interpolation.{Unlawful};
ghost use Rattle.codes.specs.Holdings.{held};
ghost use Rattle.codes.specs.Duals.{Duality};
ghost use Rattle.codes.specs.DualAnswers.{Located, MultiplierAt, MultipliersOf};

use super::lists::{ROOM, Symbols};
use fields::Kind;
use skew::{Point, unit};

// Over every kind: dual locators exist and are the only ones, the dual code is lawful over the mirror, its codewords are
// the words whose product-sum with every codeword is 0, its dual has the codewords of the first code, and syndromes tell
// codewords. Theorems, which this contract asks for.
pub fn duals_stand<K: Kind>(kind: &K) -> u8
    ensures duality { Duality (ops (K.meaning kind.now)) }
    ensures mirrors { let m = K.meaning kind.now in ops (mirrored m) ≡ mirror (ops m) }
{
    0
}

// The multiplier of place i: the highest coefficient of the polynomial that is 1 there and 0 at the other points. Nothing
// for some points that are not lawful.
fn multiplier<K: Kind>(kind: &K, points: &[Point], i: usize) -> Option<u8>
    requires { (i < length points.now) × (length points.now ≤ 24) }
    ensures { let m = K.meaning kind.now in let ps = points.now in MatchOption result (Unlawful m ps) (λ w. MultiplierAt m ps i w) }
{
    let f = unit(kind, points, i)?;
    Some(f.get(points.len() - 1))
}

// The multipliers of all places.
fn multipliers<K: Kind>(kind: &K, points: &[Point]) -> Option<Symbols>
    requires { length points.now ≤ 24 }
    ensures { let m = K.meaning kind.now in let ps = points.now in MatchOption result (Unlawful m ps) (λ s. MultipliersOf m ps (held s)) }
{
    let mut out = Symbols::empty();
    // by place, which is what `multiplier` is asked
    for i in 0..points.len() {
        let w = multiplier(kind, points, i)?;
        out.push(w);
    }
    Some(out)
}

// Every symbol of the row times c, as far as there is room.
pub fn scaled<K: Kind>(kind: &K, c: u8, row: &[u8]) -> Symbols
    ensures { let m = K.meaning kind.now in held result ≡ take 24 (codes (scale (ops m) (elem m c) (elems m row.now))) }
{
    let mut out = Symbols::empty();
    for x in row {
        let y = kind.product(c, *x);
        out.push(y);
    }
    out
}

// The dual locators of lawful points: the only row that begins with 1 and has, for each i from 0 to n - 2, the sum 0 over
// the places of dual locator × (locator twisted i times) × N(i, parameter). Nothing for no point, for more than 24, and
// for some points that are not lawful.
pub fn dual_locators<K: Kind>(kind: &K, points: &[Point]) -> Option<Symbols>
    ensures { let m = K.meaning kind.now in let ps = points.now in
        MatchOption result ((length ps ≡ 0) ⊎ ((24 < length ps) ⊎ Unlawful m ps)) (λ s. Located m ps (held s)) }
{
    if points.is_empty() {
        return None;
    }
    if points.len() > ROOM {
        return None;
    }
    let ws = multipliers(kind, points)?;
    let first = ws.get(0);
    let inverse = kind.inverse(first)?;
    Some(scaled(kind, inverse, ws.as_slice()))
}

// Recovery without hints, by what was prepared for the code.
ghost use Rattle.std.specs.Prelude.{◌≡◌, ◌≢◌, ◌≤◌, List, map, length, drop, replicate, IsNone, MatchOption};
ghost use Rattle.fields.specs.Elements.{Elem, elems, codes, ops};
ghost use Rattle.skew.specs.declared.points.Point.{Point};
ghost use Rattle.skew.specs.Polynomials.{coefficients};
ghost use Rattle.skew.specs.Pairs.{spots};
ghost use Rattle.codes.specs.Holdings.{held, stops};
ghost use Rattle.recovery.specs.Sites.{sites_in};
ghost use Rattle.codes.specs.Codes.{pts, LawfulCode, word_of};
ghost use Rattle.hints.specs.Splittings.{Given};
ghost use Rattle.hints.specs.Holdings.{Holds, no_hints};
ghost use Rattle.recovery.specs.Preparation.{word_spots, turned, Units, Rebuilt, Prepares};
ghost use Rattle.recovery.specs.Reach.{InReach, SpansOnly, Recovered};
ghost use Rattle.recovery.specs.Candidates.{Candidate};

use super::outcome::Recovery;
use super::powers::encode_by;
use super::prepared::Prepared;
use super::recovering::{candidate, weighed};
use super::spots::Spots;
use codes::{Code, product_sum};
use fields::Kind;
use hints::Hints;
use skew::{Polynomial, Site, combine, left_quotient, pairs, product};

// The polynomial with the symbols as its values at the points that the units belong to.
fn rebuilt<K: Kind>(kind: &K, prepared: &Prepared, symbols: &[u8]) -> Polynomial
    requires { length symbols.now ≤ 24 }
    ensures { let m = K.meaning kind.now in
        ((ps : List Point) → length symbols.now ≡ length ps → Units m ps (map coefficients prepared.now.units) → Rebuilt m ps symbols.now (coefficients result)) }
{
    let mut out = Polynomial::empty();
    for (y, unit) in symbols.iter().zip(&prepared.units) {
        out.gain(kind, *y, unit);
    }
    out
}

// The points behind the first k with their symbols, as the polynomial of degree k turns them: its value in place of the locator, and the
// symbol less the value of f.
fn other_sites<K: Kind>(
    kind: &K,
    code: &Code,
    prepared: &Prepared,
    f: &Polynomial,
    word: &[u8],
) -> Spots
    requires { length word.now ≡ length (stops code.now.course) }
    ensures { let m = K.meaning kind.now in let c = code.now in
        ((M : List (Elem m)) → held prepared.now.values ≡ codes (word_of m c M) → Prepares m c prepared.now → length (coefficients f.now) ≤ 24
        → spots m (sites_in result) ≡ map (turned (ops m) M (elems m (coefficients f.now))) (drop c.dimension (word_spots (pts m c) (elems m word.now)))) }
{
    let points = code.course.as_slice();
    let mut out = Spots::empty();
    // by index, since three rows are read at one place
    for i in code.dimension..points.len() {
        let here = product_sum(kind, f.as_slice(), &prepared.powers[i]);
        let minus = kind.opposite(here);
        let second = kind.sum(word[i], minus);
        let locator = prepared.values.get(i);
        out.push(Site {
            parameter: points[i].parameter,
            locator,
            second,
        });
    }
    out
}

// The only message whose codeword can be in reach without hints: there always is one.
fn hintless<K: Kind>(kind: &K, code: &Code, prepared: &Prepared, word: &[u8]) -> Option<Polynomial>
    requires { length word.now ≡ length (stops code.now.course) }
    ensures { let m = K.meaning kind.now in let c = code.now in
        (LawfulCode m c → Prepares m c prepared.now
        → MatchOption result ⊥ (λ f. Candidate m c (replicate (length (held c.lengths)) (no_hints m)) (elems m word.now) (coefficients f))) }
{
    let near = rebuilt(kind, prepared, &word[0..code.dimension]);
    let sites = other_sites(kind, code, prepared, &near, word);
    let both = pairs(kind, 0, sites.as_slice())?;
    let left = product(kind, &both.second.q0, &prepared.top)?;
    let off = left_quotient(kind, &left, &both.second.q1, code.dimension)?;
    let minus = kind.opposite(1);
    Some(combine(kind, 1, &near, minus, &off))
}

// The only message whose codeword can be in reach: there always is one.
fn candidate_by<K: Kind>(
    kind: &K,
    code: &Code,
    prepared: &Prepared,
    hints: &Hints,
    word: &[u8],
) -> Option<Polynomial>
    requires { length word.now ≡ length (stops code.now.course) }
    ensures { let m = K.meaning kind.now in let c = code.now in
        (LawfulCode m c → Prepares m c prepared.now → (gs : List (Given (Elem m))) → Holds m (held c.lengths) c.dimension hints.now gs
        → MatchOption result ⊥ (λ f. Candidate m c gs (elems m word.now) (coefficients f))) }
{
    if hints.rows + hints.columns > 0 {
        candidate(kind, code, hints, word)
    } else {
        hintless(kind, code, prepared, word)
    }
}

// What `recover` gives, with less work.
pub fn recover_by<K: Kind>(
    kind: &K,
    code: &Code,
    prepared: &Prepared,
    hints: &Hints,
    word: &[u8],
) -> Option<Recovery>
    ensures spans { let m = K.meaning kind.now in let c = code.now in
        (length word.now ≡ length (stops c.course) → SpansOnly m c (elems m word.now)) }
    ensures other { (length word.now ≢ length (stops code.now.course) → IsNone result) }
    ensures exact { let m = K.meaning kind.now in let c = code.now in let w = elems m word.now in
        (LawfulCode m c → Prepares m c prepared.now → length word.now ≡ length (stops c.course)
        → (gs : List (Given (Elem m))) → Holds m (held c.lengths) c.dimension hints.now gs
        → MatchOption result ((v : List (Elem m)) → ¬ InReach m c gs w v) (λ x. Recovered m c gs w x)) }
{
    if word.len() != code.course.len() {
        return None;
    }
    let message = candidate_by(kind, code, prepared, hints, word)?;
    let codeword = encode_by(kind, code, prepared, &message);
    weighed(kind, code, hints, word, &message, codeword)
}

// Recovery of a codeword from a word that is wrong in places, with hints.
ghost use Rattle.std.specs.Prelude.{◌≡◌, ◌≢◌, List, map, length, take, IsNone, MatchOption};
ghost use Rattle.fields.specs.Field.{plus};
ghost use Rattle.fields.specs.Elements.{Elem, elems, codes, ops};
ghost use Rattle.skew.specs.Polynomials.{coefficients};
ghost use Rattle.codes.specs.Holdings.{held, stops};
ghost use Rattle.codes.specs.Codes.{LawfulCode, word_of};
ghost use Rattle.hints.specs.Splittings.{Given};
ghost use Rattle.hints.specs.Holdings.{Holds};
ghost use Rattle.recovery.specs.Reach.{InReach, SpansOnly, Recovered};
ghost use Rattle.recovery.specs.Candidates.{Candidate};

use super::killing::row_points;
use super::outcome::Recovery;
use super::remains::left_sites;
use codes::{Code, Symbols, encode};
use fields::Kind;
use hints::{Hints, least_splitting};
use ranks::weight;
use skew::{Polynomial, annihilator, combine, left_quotient, pairs, product};

// The polynomial with the opposite coefficients.
fn negated<K: Kind>(kind: &K, f: &Polynomial) -> Polynomial
    ensures { let m = K.meaning kind.now in coefficients result ≡ codes (map (ops m).neg (elems m (coefficients f.now))) }
{
    let minus = kind.opposite(1);
    combine(kind, minus, f, 0, &Polynomial::empty())
}

// The only message whose codeword can be in reach: there always is one.
pub fn candidate<K: Kind>(kind: &K, code: &Code, hints: &Hints, word: &[u8]) -> Option<Polynomial>
    requires { length word.now ≡ length (stops code.now.course) }
    ensures { let m = K.meaning kind.now in let c = code.now in
        (LawfulCode m c → (gs : List (Given (Elem m))) → Holds m (held c.lengths) c.dimension hints.now gs
        → MatchOption result ⊥ (λ f. Candidate m c gs (elems m word.now) (coefficients f))) }
{
    let points = row_points(kind, code, hints);
    let killer = annihilator(kind, points.as_slice())?;
    let sites = left_sites(kind, code, hints, word, &killer);
    let weight = code.dimension + hints.rows;
    let both = pairs(kind, weight, sites.as_slice())?;
    let divisor = product(kind, &both.second.q1, &killer)?;
    let dividend = negated(kind, &both.second.q0);
    left_quotient(kind, &dividend, &divisor, code.dimension)
}

// The word less the codeword, as far as both reach. `less` of hints does so with rows of eight, place by place; here it is in order.
fn difference<K: Kind>(kind: &K, word: &[u8], codeword: &Symbols) -> Symbols
    requires { length (held codeword.now) ≡ length word.now }
    ensures { let m = K.meaning kind.now in
        held result ≡ take 24 (codes (plus (ops m) (elems m word.now) (map (ops m).neg (elems m (held codeword.now))))) }
{
    let mut out = Symbols::empty();
    for (x, y) in word.iter().zip(codeword.as_slice()) {
        let minus = kind.opposite(*y);
        let here = kind.sum(*x, minus);
        out.push(here);
    }
    out
}

// That a word is as long as the code is asked of what `recover` and `recover_by` call, which test it; a type for such words would borrow both.

// The recovery that a candidate and its codeword lead to: the difference of the word from that, split with least full errors. Nothing
// where that costs more than the budget.
pub fn weighed<K: Kind>(
    kind: &K,
    code: &Code,
    hints: &Hints,
    word: &[u8],
    message: &Polynomial,
    codeword: Symbols,
) -> Option<Recovery>
    requires same { length word.now ≡ length (stops code.now.course) }
    requires long { length (held codeword) ≡ length word.now }
    ensures { let m = K.meaning kind.now in let c = code.now in let w = elems m word.now in
        (LawfulCode m c → (gs : List (Given (Elem m))) → Holds m (held c.lengths) c.dimension hints.now gs → Candidate m c gs w (coefficients message.now)
        → held codeword ≡ codes (word_of m c (elems m (coefficients message.now)))
        → MatchOption result ((v : List (Elem m)) → ¬ InReach m c gs w v) (λ x. Recovered m c gs w x)) }
{
    let rest = difference(kind, word, &codeword);
    let lengths = code.lengths.as_slice();
    let parts = least_splitting(kind, lengths, hints, rest.as_slice());
    let errors = weight(kind, lengths, parts.full.as_slice())?;
    let cost = errors + errors + (hints.rows + hints.columns);
    let most = word.len() - code.dimension;
    if cost > most {
        return None;
    }
    Some(Recovery {
        codeword,
        message: *message,
        parts,
        errors,
    })
}

// The codeword in reach of a word under hints, its message, and its difference split with least full errors. Nothing where no codeword
// is in reach, and for a word of another length.
pub fn recover<K: Kind>(kind: &K, code: &Code, hints: &Hints, word: &[u8]) -> Option<Recovery>
    ensures spans { let m = K.meaning kind.now in let c = code.now in
        (length word.now ≡ length (stops c.course) → SpansOnly m c (elems m word.now)) }
    ensures other { (length word.now ≢ length (stops code.now.course) → IsNone result) }
    ensures exact { let m = K.meaning kind.now in let c = code.now in let w = elems m word.now in
        (LawfulCode m c → length word.now ≡ length (stops c.course) → (gs : List (Given (Elem m))) → Holds m (held c.lengths) c.dimension hints.now gs
        → MatchOption result ((v : List (Elem m)) → ¬ InReach m c gs w v) (λ x. Recovered m c gs w x)) }
{
    if word.len() != code.course.len() {
        return None;
    }
    let message = candidate(kind, code, hints, word)?;
    let codeword = encode(kind, code, message.as_slice());
    weighed(kind, code, hints, word, &message, codeword)
}

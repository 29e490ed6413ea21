// Encoding a message, and reading one back.
ghost use Rattle.std.specs.Prelude.{◌≡◌, MatchOption};
ghost use Rattle.fields.specs.Elements.{elems, codes};
ghost use Rattle.skew.specs.Polynomials.{coefficients};
ghost use Rattle.codes.specs.Holdings.{held};
ghost use Rattle.codes.specs.Codes.{word_of, Read, Unread};

use super::lists::Symbols;
use super::shape::Code;
use fields::Kind;
use skew::{Polynomial, interpolate, value};

// The codeword of a message: its value at each point, in order.
pub fn encode<K: Kind>(kind: &K, code: &Code, message: &[u8]) -> Symbols
    ensures { let m = K.meaning kind.now in held result ≡ codes (word_of m code.now (elems m message.now)) }
{
    let points = code.course.as_slice();
    let mut out = Symbols::empty();
    for p in points {
        let symbol = value(kind, message, p.parameter, p.locator);
        out.push(symbol);
    }
    out
}

// The one message of a codeword; nothing for every other word.
pub fn message<K: Kind>(kind: &K, code: &Code, word: &[u8]) -> Option<Polynomial>
    ensures { let m = K.meaning kind.now in MatchOption result (Unread m code.now word.now) (λ f. Read m code.now word.now (coefficients f)) }
{
    let points = code.course.as_slice();
    let f = interpolate(kind, points, word)?;
    if f.as_slice().iter().skip(code.dimension).any(|c| *c != 0) {
        return None;
    }
    Some(f.resized(code.dimension))
}

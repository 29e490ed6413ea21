// What recovery can prepare once for a code.
ghost use Rattle.std.specs.Prelude.{MatchOption};
ghost use Rattle.codes.specs.Codes.{LawfulCode};
ghost use Rattle.recovery.specs.Preparation.{Prepares};

use super::powers::powers_of;
use super::prepared::Prepared;
use codes::{Code, encode};
use fields::Kind;
use skew::{Polynomial, annihilator, unit};

// What belongs to a code: for a lawful one there always is something.
pub fn prepare<K: Kind>(kind: &K, code: &Code) -> Option<Prepared>
    ensures { let m = K.meaning kind.now in let c = code.now in (LawfulCode m c → MatchOption result ⊥ (λ p. Prepares m c p)) }
{
    let points = code.course.as_slice();
    let first = &points[0..code.dimension];
    let top = annihilator(kind, first)?;
    let values = encode(kind, code, top.as_slice());
    let mut units = [Polynomial::empty(); 24];
    // by index, which is what `unit` is asked for
    for j in 0..code.dimension {
        let f = unit(kind, first, j)?;
        units[j] = f;
    }
    Some(Prepared {
        top,
        values,
        units,
        powers: powers_of(kind, points),
    })
}

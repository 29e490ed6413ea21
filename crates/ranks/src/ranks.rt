// Rank, independence and weight, by the digits of the symbols.
ghost use Rattle.std.specs.Prelude.{◌≡◌, MatchOption};
ghost use Rattle.fields.specs.Elements.{elems, ops};
ghost use Rattle.skew.specs.Roots.{Independent};
ghost use Rattle.ranks.specs.Ranks.{IsRank, Ranked, Depends};

use super::rows::{Form, Row};
use fields::Kind;

// The rank of the symbols: the largest number of independent ones among them. There may be any number of symbols.
pub fn rank<K: Kind>(kind: &K, symbols: &[u8]) -> usize
    ensures { let m = K.meaning kind.now in IsRank (ops m) (elems m symbols.now) result }
{
    let mut form = Form::empty();
    let mut count = 0;
    for x in symbols {
        let more = form.insert(kind, &Row::of_digits(kind, *x));
        if more {
            count += 1;
        }
    }
    count
}

// The first place whose locator is a combination of the earlier ones with fixed coefficients; nothing exactly where the
// locators are independent.
pub fn dependent_at<K: Kind>(kind: &K, locators: &[u8]) -> Option<usize>
    ensures { let m = K.meaning kind.now in let ls = locators.now in
        MatchOption result (Independent (ops m) (elems m ls)) (λ i. Depends m ls i) }
{
    let mut form = Form::empty();
    // A loop: a proof learns nothing of what `position` finds by a closure that alters the form.
    for (i, x) in locators.iter().enumerate() {
        let more = form.insert(kind, &Row::of_digits(kind, *x));
        if !more {
            return Some(i);
        }
    }
    None
}

// Each list of elements has one rank, and each word one weight: a theorem, which this contract asks for.
pub fn ranks_stand<K: Kind>(kind: &K) -> u8
    ensures { Ranked (ops (K.meaning kind.now)) }
{
    0
}

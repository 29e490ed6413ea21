// The weight of words.
ghost use Rattle.std.specs.Prelude.{◌≡◌, ◌≢◌, map, length, MatchOption};
ghost use Rattle.fields.specs.Elements.{elems, ops};
ghost use Rattle.ranks.specs.Ranks.{Weighs, total, cut};

use super::ranks::rank;
use fields::Kind;

// The weight of a word in blocks of these lengths: the sum of the ranks of the blocks. Nothing where the lengths do not
// sum to the number of symbols.
pub fn weight<K: Kind>(kind: &K, lengths: &[u8], word: &[u8]) -> Option<usize>
    ensures { let m = K.meaning kind.now in let ns = lengths.now in let w = word.now in
        MatchOption result (total ns ≢ length w) (λ t. (total ns ≡ length w) × Weighs (ops m) (map (elems m) (cut ns w)) t) }
{
    let mut rest = word;
    let mut sum = 0;
    for n in lengths {
        let (block, behind) = rest.split_at_checked(*n as usize)?;
        sum += rank(kind, block);
        rest = behind;
    }
    if rest.is_empty() { Some(sum) } else { None }
}

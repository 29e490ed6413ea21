// The two codes that all documents use, and a damaged word.
ghost use Rattle.std.specs.Prelude.{◌≡◌, ◌≤◌, length, min};
ghost use Rattle.codes.specs.Holdings.{held};

use codes::Symbols;
use fields::Kind;

// Kind 4, dimension 2; four blocks of one symbol, their parameters, and the locators.
pub const SHEET: [u8; 17] = [4, 2, 4, 1, 1, 1, 1, 4, 1, 2, 3, 4, 4, 1, 1, 1, 1];

// Kind 2, dimension 2; two blocks of two symbols, their parameters, and the locators.
pub const SECOND_SHEET: [u8; 13] = [2, 2, 2, 2, 2, 2, 1, 2, 4, 1, 2, 1, 2];

// A message for the first code.
pub const MESSAGE: [u8; 2] = [5, 3];

// What the tours add to the second symbol of the first code's word.
pub const DAMAGE: [u8; 4] = [0, 1, 0, 0];

// The word plus the damage, symbol by symbol: as long as the damage, up to 24.
pub fn damaged<K: Kind>(kind: &K, word: &Symbols, damage: &[u8]) -> Symbols
    ensures { length (held result) ≡ min 24 (length damage.now) }
{
    let mut out = Symbols::empty();
    // by number, since past the end of the word 0 is read
    for (i, d) in damage.iter().enumerate() {
        out.push(kind.sum(word.get(i), *d));
    }
    out
}

// Words of codes, as they are altered.
use codes::Symbols;
use fields::Kind;

// A codeword, the same with one symbol changed, and any word.
#[derive(Clone, Copy)]
pub struct Words {
    pub good: Symbols,
    pub near: Symbols,
    pub any: Symbols,
}

// The word with x added at a place.
pub fn spoiled<K: Kind>(kind: &K, word: &Symbols, place: usize, x: u8) -> Symbols {
    let mut out = *word;
    out.put(place, kind.sum(word.get(place), x));
    out
}

// Every word of a code of four symbols.
use fields::Kind;

// Calls `visit` with each word of four codes, in order. The kind has less than 256 elements.
pub fn each_word<K: Kind, F: FnMut([u8; 4])>(kind: &K, mut visit: F)
    requires { F.IsAlwaysCallable visit }
{
    let top = u8::try_from(kind.size()).unwrap_or(u8::MAX);
    for a in 0..top {
        for b in 0..top {
            for c in 0..top {
                for d in 0..top {
                    visit([a, b, c, d]);
                }
            }
        }
    }
}

// How far codewords are apart.
ghost use Rattle.fields.specs.Elements.{ops};
ghost use Rattle.ranks.specs.Distance.{MinimumDistance};

use fields::Kind;

// Of a lawful code with n places and k coefficients, a codeword other than zero weighs at least n - k + 1, and two messages
// whose codewords have a difference of weight at most n - k are equal: a theorem, which this contract asks for.
pub fn minimum_distance<K: Kind>(kind: &K) -> u8
    ensures { MinimumDistance (ops (K.meaning kind.now)) }
{
    0
}

// Kinds of finite field on byte codes, behind one interface.
//
// A kind has Q elements, coded 0 to Q - 1. An argument that is no code counts as 0, and no call alters the kind.
// What a kind means, and the laws that it owes, are in specs/Meaning.antt; a kind that breaks one cannot be built.
#![tactic(auto)]

ghost use Rattle.std.specs.Prelude.{◌≡◌, ℕ, ◌<◌, if◌then◌else◌, nat_lt};
ghost use Rattle.fields.specs.Meaning.{Meaning, Laws, clip, inverted};
ghost use Rattle.fields.specs.Meaning.{basis_at, digit_row};
ghost use Rattle.fields.specs.Elements.{reciprocal_of, DigitsLinear, ops, basis_of, digits_of};
ghost use Rattle.fields.specs.Field as field;

pub mod bits;
pub mod integers;
pub mod mirrors;
pub mod tables;
pub mod ternary;
mod trits;

pub use bits::Gf256;
pub use integers::Mod13;
pub use mirrors::{Mirror, across};
pub use tables::Gf16;
pub use ternary::Gf81;

pub trait Kind {
    ghost meaning: { Self → Meaning };

    // The number of the kind.
    fn number(&self) -> u8
        ensures { result ≡ (meaning self.now).number };

    // Q, the number of elements: 2 to 256.
    fn size(&self) -> u16
        ensures { result ≡ (meaning self.now).size };

    fn sum(&self, a: u8, b: u8) -> u8
        ensures { let m = meaning self.now in result ≡ m.sum (clip m a) (clip m b) };

    // The element that a sums to 0 with.
    fn opposite(&self, a: u8) -> u8
        ensures { let m = meaning self.now in result ≡ m.opposite (clip m a) };

    fn product(&self, a: u8, b: u8) -> u8
        ensures { let m = meaning self.now in result ≡ m.product (clip m a) (clip m b) };

    // The element whose product with a is 1; absent where a counts as 0, and only there.
    fn inverse(&self, a: u8) -> Option<u8>
        ensures { result ≡ inverted (meaning self.now) a };

    // The automorphism of the field, and the way back.
    fn twist(&self, a: u8) -> u8
        ensures { let m = meaning self.now in result ≡ m.twist (clip m a) };

    fn untwist(&self, a: u8) -> u8
        ensures { let m = meaning self.now in result ≡ m.untwist (clip m a) };

    // m, the number of digits: 1 to 8.
    fn width(&self) -> usize
        ensures { result ≡ (meaning self.now).width };

    // The basis element number j, from 1 to m; 0 for any other j.
    fn basis(&self, j: usize) -> u8
        ensures { result ≡ basis_at (meaning self.now) j };

    // The m fixed digits with which the basis combines to a, and then zeros: eight places for every kind, since nothing allocates.
    fn digits(&self, a: u8) -> [u8; 8]
        ensures { result ≡ digit_row (meaning self.now) a };

    ghost lawful: { (k : Self) → Laws (meaning k) };
}

// What a counts as: itself where it is a code, else 0.
pub fn code<K: Kind>(kind: &K, a: u8) -> u8
    ensures { result ≡ clip (K.meaning kind.now) a }
{
    if (a as u16) < kind.size() { a } else { 0 }
}

// The same where the number of elements is known as the program is compiled; that of a kind is known as it runs. Whether a symbol is a code is one
// comparison wherever it is asked, which a function would not make plainer.
fn clipped<const SIZE: u8>(a: u8) -> u8
    requires { 0 < SIZE }
    ensures value { result ≡ (if nat_lt a SIZE then a else 0) }
    ensures below { result < SIZE }
{
    if a < SIZE { a } else { 0 }
}

// The inverse, and 0 at 0.
pub fn reciprocal<K: Kind>(kind: &K, a: u8) -> u8
    ensures { let m = K.meaning kind.now in result ≡ reciprocal_of m (clip m a) }
{
    kind.inverse(a).unwrap_or(0)
}

// The elements of every kind are a field with an automorphism: a theorem, which this contract asks for.
pub fn elements_stand<K: Kind>(kind: &K) -> u8
    ensures field { field.Laws (ops (K.meaning kind.now)) }
    ensures digits { let m = K.meaning kind.now in DigitsLinear (ops m) (basis_of m) (digits_of m) }
{
    0
}

// The mirror of a kind: twist and untwist exchanged.
ghost use Rattle.std.specs.Prelude.{◌≡◌};
ghost use Rattle.fields.specs.Mirror.{across as across_of, mirrored};
ghost use Rattle.fields.specs.MirrorLaws.{mirror_laws};

use super::Kind;

// The number of the mirror of a kind: 128 more, or 128 less where it is 128 or more.
pub fn across(number: u8) -> u8
    ensures { result ≡ across_of number }
{
    if number < 128 {
        number + 128
    } else {
        number - 128
    }
}

#[derive(Clone, Copy, Debug, Default, PartialEq, Eq)]
pub struct Mirror<K> {
    pub inner: K,
}

impl<K: Kind> Kind for Mirror<K> {
    ghost meaning = { λ m. mirrored (K.Kind.meaning m.inner) };

    ghost lawful = { λ k. mirror_laws _ (K.Kind.lawful k.inner) };

    fn number(&self) -> u8 {
        across(self.inner.number())
    }

    fn size(&self) -> u16 {
        self.inner.size()
    }

    fn sum(&self, a: u8, b: u8) -> u8 {
        self.inner.sum(a, b)
    }

    fn opposite(&self, a: u8) -> u8 {
        self.inner.opposite(a)
    }

    fn product(&self, a: u8, b: u8) -> u8 {
        self.inner.product(a, b)
    }

    fn inverse(&self, a: u8) -> Option<u8> {
        self.inner.inverse(a)
    }

    fn twist(&self, a: u8) -> u8 {
        self.inner.untwist(a)
    }

    fn untwist(&self, a: u8) -> u8 {
        self.inner.twist(a)
    }

    fn width(&self) -> usize {
        self.inner.width()
    }

    fn basis(&self, j: usize) -> u8 {
        self.inner.basis(j)
    }

    fn digits(&self, a: u8) -> [u8; 8] {
        self.inner.digits(a)
    }
}

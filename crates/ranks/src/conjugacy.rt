// Conjugacy of elements.
ghost use Rattle.fields.specs.Elements.{elem, ops};
ghost use Rattle.skew.specs.Roots.{Conjugate};
ghost use Rattle.ranks.specs.Ranks.{Tells};

use fields::Kind;

// Whether b is (c twisted) × a × (inverse of c) for some c other than 0, by trying every c.
pub fn conjugate<K: Kind>(kind: &K, a: u8, b: u8) -> bool
    ensures { let m = K.meaning kind.now in Tells result (Conjugate (ops m) (elem m a) (elem m b)) }
{
    (1..kind.size()).any(|c| {
        let x = c as u8;
        let twisted = kind.twist(x);
        let from_a = kind.product(twisted, a);
        from_a == kind.product(b, x)
    })
}

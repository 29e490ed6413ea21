// A generator of numbers: 32 bits, of which the top byte is drawn.
ghost use Rattle.std.specs.Prelude.{◌≡◌, ◌+◌, ◌<◌, ◌≤◌, IsSomeAnd, length, min};
ghost use Rattle.skew.specs.Few.{held};

use fields::Kind;
use skew::Few;

#[derive(Drop)]
pub struct Random {
    state: u32,
}

impl Random {
    pub fn seeded(seed: u8) -> Random
        ensures { result.state ≡ seed }
    {
        Random {
            state: u32::from(seed),
        }
    }

    // A number below the bound; 0 where the bound is 0.
    pub fn below(&mut self, bound: u16) -> u8
        ensures { 1 ≤ bound → result < bound }
    {
        self.state = self.state.wrapping_mul(1664525).wrapping_add(1013904223);
        let [drawn, ..] = self.state.to_be_bytes();
        (u16::from(drawn) % bound.clamp(1, 256)) as u8
    }

    // A symbol of the kind, and now and then the first number that is no code.
    pub fn symbol<K: Kind>(&mut self, kind: &K) -> u8
        ensures { result ≤ (K.meaning kind.now).size }
    {
        self.below(kind.size().saturating_add(1))
    }

    // A code other than 0.
    pub fn unit<K: Kind>(&mut self, kind: &K) -> u8
        ensures { (1 ≤ result) × (2 ≤ (K.meaning kind.now).size → result < (K.meaning kind.now).size) }
    {
        self.below(kind.size().saturating_sub(1)).saturating_add(1)
    }

    // A place below n.
    pub fn place(&mut self, n: usize) -> usize
        ensures { 1 ≤ n → result < n }
    {
        usize::from(self.below(u16::try_from(n).unwrap_or(256)))
    }

    // Drawn of the kind, one after the other, without end.
    pub fn symbols<'a, K: Kind>(&'a mut self, kind: &'a K) -> Drawn<'a, K> {
        Drawn { random: self, kind }
    }

    // The first n symbols that are drawn, as far as they fit.
    pub fn drawn<K: Kind, const N: usize>(&mut self, kind: &K, n: usize) -> Few<u8, N>
        ensures { length (held result) ≡ min N n }
    {
        let mut out = Few::empty();
        for _i in 0..n {
            out.push(self.symbol(kind));
        }
        out
    }
}

#[derive(Drop)]
pub struct Drawn<'a, K> {
    random: &'a mut Random,
    kind: &'a K,
}

impl<K: Kind> Iterator for Drawn<'_, K> {
    type Item = u8;

    ghost next_gives = { λ s r t. IsSomeAnd r (λ x. x ≤ (K.Kind.meaning s.kind.now).size) };

    fn next(&mut self) -> Option<u8> {
        Some(self.random.symbol(self.kind))
    }
}

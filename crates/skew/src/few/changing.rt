// Polynomials that are changed in place. These loops count an index: of what is written through a part of an array whose length is a
// parameter a proof learns nothing (tried with iter_mut), and sums reach past the end of the shorter list.
ghost use Rattle.std.specs.Prelude.{◌≡◌, take};
ghost use Rattle.fields.specs.Elements.{codes};
ghost use Rattle.skew.specs.Few.{held};
ghost use Rattle.skew.specs.Polynomials.{combined, raised, Added};

use super::Few;
use fields::Kind;

impl<const N: usize> Few<u8, N> {
    // Becomes c times itself plus d times g, as long as the longer of the two.
    pub fn cross<K: Kind>(&mut self, kind: &K, c: u8, d: u8, g: &Self)
        ensures { let m = K.meaning kind.now in held self.new ≡ codes (combined m c (held self.old) d (held g.now)) }
    {
        let n = self.len.max(g.len);
        for i in 0..n {
            let left = kind.product(c, self.get(i));
            let right = kind.product(d, g.get(i));
            let sum = kind.sum(left, right);
            self.cells[i] = sum;
        }
        self.len = n;
    }

    // Gets d times g added. It is `cross` with c = 1; tried by that, and recovery of a word of the largest code took a twentieth more time.
    pub fn gain<K: Kind>(&mut self, kind: &K, d: u8, g: &Self)
        ensures { let m = K.meaning kind.now in held self.new ≡ codes (combined m 1 (held self.old) d (held g.now)) }
    {
        let len = self.len.max(g.len);
        for i in 0..len {
            let term = kind.product(d, g.get(i));
            let sum = kind.sum(self.get(i), term);
            self.cells[i] = sum;
        }
        self.len = len;
    }

    // Is multiplied from the left by x - c; what is past the capacity is cut off.
    pub fn raise<K: Kind>(&mut self, kind: &K, c: u8)
        ensures { let m = K.meaning kind.now in held self.new ≡ take N (codes (raised m c (held self.old))) }
    {
        let d = kind.opposite(c);
        let mut below = 0;
        for i in 0..self.len {
            let x = self.cells[i];
            let left = kind.product(d, x);
            let sum = kind.sum(left, below);
            self.cells[i] = sum;
            below = kind.twist(x);
        }
        self.push(below);
    }

    // Gets f × (c times the j-th power) added, as far as it reaches: coefficient i of f meets c twisted i times.
    pub fn add<K: Kind>(&mut self, kind: &K, f: &Self, j: usize, c: u8)
        ensures { let m = K.meaning kind.now in Added m (held f.now) j c (held self.old) (held self.new) }
    {
        let n = f.len.min(self.len.saturating_sub(j));
        let mut x = c;
        for i in 0..n {
            let term = kind.product(f.cells[i], x);
            let place = i + j;
            let sum = kind.sum(self.cells[place], term);
            self.cells[place] = sum;
            x = kind.twist(x);
        }
    }
}

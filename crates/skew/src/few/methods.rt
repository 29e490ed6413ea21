// What is done with a list of fixed capacity.
ghost use Rattle.std.specs.Prelude.{◌≡◌, ◌<◌, [], ◌∷◌, ◌++◌, length, take, slice_set};
ghost use Rattle.skew.specs.Few.{held};

use super::Few;

impl<T: Copy + Default, const N: usize> Few<T, N> {
    pub fn empty() -> Self
        ensures { held result ≡ [] }
    {
        Few {
            cells: [T::default(); N],
            len: 0,
        }
    }
}

impl<T: Copy, const N: usize> Few<T, N> {
    // How many are held.
    pub fn len(&self) -> usize
        ensures { result ≡ length (held self.now) }
    {
        self.as_slice().len()
    }

    pub fn as_slice(&self) -> &[T]
        ensures { result.now ≡ held self.now }
    {
        let all = &self.cells[..];
        &all[..self.len]
    }

    // One more; what is past the capacity is cut off.
    pub fn push(&mut self, x: T)
        ensures { held self.new ≡ take N (held self.old ++ x ∷ []) }
    {
        if self.len < N {
            self.cells[self.len] = x;
            self.len += 1;
        }
    }

    // Another one at place i, where there is one.
    pub fn put(&mut self, i: usize, x: T)
        ensures { held self.new ≡ slice_set (held self.old) i x }
    {
        if i < self.len {
            self.cells[i] = x;
        }
    }

    // These more, as far as they fit.
    pub fn append(&mut self, more: &[T])
        ensures { held self.new ≡ take N (held self.old ++ more.now) }
    {
        for x in more {
            self.push(*x);
        }
    }
}

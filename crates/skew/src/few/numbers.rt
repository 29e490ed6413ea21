// Lists of numbers.
ghost use Rattle.std.specs.Prelude.{◌≡◌, ◌<◌, length, MatchOption, slice_index};
ghost use Rattle.skew.specs.Few.{held};
ghost use Rattle.skew.specs.Few.{Resized};

use super::Few;

impl<const N: usize> Few<u8, N> {
    // The list of these numbers; nothing for more than fit. No TryFrom: there is one way to fail, and an Option says it.
    pub fn from_slice(source: &[u8]) -> Option<Self>
        ensures { let s = source.now in MatchOption result (N < length s) (λ t. held t ≡ s) }
    {
        if source.len() > N {
            return None;
        }
        let mut out = Few::empty();
        out.append(source);
        Some(out)
    }

    // Number i, counted from 0; 0 past the end.
    pub fn get(&self, i: usize) -> u8
        ensures { result ≡ slice_index (held self.now) i }
    {
        if i < self.len { self.cells[i] } else { 0 }
    }

    // The first n numbers, with zeros behind where there are fewer, as far as they fit. By index, since past the end 0 is read.
    pub fn resized(&self, n: usize) -> Self
        ensures { Resized N (held self.now) n (held result) }
    {
        let mut out = Few::empty();
        for i in 0..n {
            out.push(self.get(i));
        }
        out
    }
}

// Bytes of sheets, and words of codes, with a change.
ghost use Rattle.std.specs.Prelude.{◌≡◌, ◌-◌, length};
ghost use Rattle.skew.specs.Few.{held};

use codes::{SheetBytes, byte};
use skew::Few;

// The sheet with these bytes.
pub fn sheet_of(bytes: &[u8]) -> SheetBytes {
    let mut out = SheetBytes::empty();
    out.append(bytes);
    out
}

// The numbers without the last.
pub fn shorter<const N: usize>(numbers: &Few<u8, N>) -> Few<u8, N>
    ensures { length (held result) ≡ length (held numbers.now) - 1 }
{
    numbers.resized(numbers.len().saturating_sub(1))
}

pub trait Altered {
    // A count, and then as many bytes.
    fn section(&mut self, bytes: &[u8]);

    // The bytes with another one at a place.
    fn with(&self, place: usize, x: u8) -> Self;

    // The bytes with one more.
    fn longer(&self, x: u8) -> Self;
}

impl<const N: usize> Altered for Few<u8, N> {
    fn section(&mut self, bytes: &[u8]) {
        self.push(byte(bytes.len()));
        self.append(bytes);
    }

    fn with(&self, place: usize, x: u8) -> Self {
        let mut out = *self;
        out.put(place, x);
        out
    }

    fn longer(&self, x: u8) -> Self {
        let mut out = *self;
        out.push(x);
        out
    }
}

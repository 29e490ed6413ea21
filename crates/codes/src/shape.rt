// A code: its dimension, the lengths of its blocks, and a point for each symbol, within the limits of a sheet. The struct stands alone
// in its file, since specs name it; that its points are lawful over a kind is a predicate there, which whoever makes a code promises: a code
// holds no kind, so no ghost field can say it.
ghost use Rattle.std.specs.Prelude.{◌≡◌, ℕ, ◌<◌, ◌≤◌, length, slice_index};
ghost use Rattle.codes.specs.Holdings.{held, stops};
ghost use Rattle.ranks.specs.Ranks.{total};

use super::lists::{Course, Symbols};

#[derive(Clone, Copy)]
pub struct Code {
    pub dimension: usize,
    pub lengths: Symbols,
    pub course: Course,
    ghost least: { 1 ≤ dimension },
    ghost most: { dimension ≤ length (stops course) },
    ghost blocks: { length (held lengths) ≤ 12 },
    ghost each: { (i : ℕ) → i < length (held lengths) → (1 ≤ slice_index (held lengths) i) × (slice_index (held lengths) i ≤ 8) },
    ghost sum: { total (held lengths) ≡ length (stops course) },
}

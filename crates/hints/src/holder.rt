// The hints that were taken for a word, block by block, in fixed memory, and how many of each sort. The struct stands alone in its file, since specs name it.
ghost use Rattle.std.specs.Prelude.{◌≡◌, ◌+◌, ◌≤◌, length};

use super::block::BlockHints;

#[derive(Clone, Copy, PartialEq, Eq, Debug)]
pub struct Hints {
    pub blocks: [BlockHints; 12],
    pub rows: usize,
    pub columns: usize,
    ghost room: { length blocks ≡ 12 },
    ghost few: { rows + columns ≤ 24 },
}

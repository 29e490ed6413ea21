// How many words were recovered, and how many full errors they had. The struct stands alone in its file, since specs name it.
ghost use Rattle.std.specs.Prelude.{◌*◌, ◌≤◌};

// A tally of this many words is full.
pub const MOST_WORDS: usize = 1000000;

#[derive(Clone, Copy, PartialEq, Eq, Debug)]
pub struct Tally {
    pub words: usize,
    pub errors: usize,
    ghost room: { words ≤ 1000000 },
    ghost few: { errors ≤ 12 * words },
}

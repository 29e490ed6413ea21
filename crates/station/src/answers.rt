// What a station answers.
use super::tally::Tally;
use codes::SheetBytes;

// tF, tR and tC: how many full errors there are, and how many hints of each sort.
#[derive(Clone, Copy, PartialEq, Eq, Debug)]
pub struct Counts {
    pub full: usize,
    pub row: usize,
    pub column: usize,
}

#[derive(Clone, Copy)]
pub enum Answer {
    Done,
    Wrote(SheetBytes),
    Weighs(usize),
    Counted(Tally),
    Handed(SheetBytes, Counts),
}

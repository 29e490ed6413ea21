// Hints in bytes: the row hints after their number, each a block and an element, and the column hints after theirs, each a block,
// a length and as many coefficients.
ghost use Rattle.std.specs.Prelude.{◌≡◌, ◌+◌, ◌≤◌, length, OnErr};
ghost use Rattle.std.specs.Iterator.{at_most};

use crate::splits::split;
use codes::Code;
use fields::Kind;
use hints::{Hints, NotTaken};

// One hint on a block.
#[derive(Clone, Copy, PartialEq, Eq, Debug)]
pub enum Hint<'a> {
    Row {
        block: usize,
        element: u8,
    },
    Column {
        block: usize,
        coefficients: &'a [u8],
    },
}

impl Hint<'_> {
    ghost use Rattle.cases.specs.Sorts.{sort_of};

    // What hints of this sort are called.
    pub fn sort(&self) -> &'static str
        ensures { result.now ≡ sort_of self.now }
    {
        match self {
            Hint::Row { .. } => "row",
            Hint::Column { .. } => "column",
        }
    }

    // What is said of the hint by those that were taken before.
    pub fn add_to<K: Kind>(self, kind: &K, code: &Code, hints: &mut Hints) -> Result<(), NotTaken>
        ensures { OnErr result (hints.new ≡ hints.old) }
    {
        match self {
            Hint::Row { block, element } => hints.add_row(kind, code, block, element),
            Hint::Column {
                block,
                coefficients,
            } => hints.add_column(kind, code, block, coefficients),
        }
    }
}

// The hints that are still to be read: the bytes of the row hints, how many column hints are said to follow, and their bytes.
#[derive(Clone, Copy, PartialEq, Eq, Debug)]
pub struct HintReader<'a> {
    rows: &'a [u8],
    columns: u8,
    rest: &'a [u8],
}

// A number and what follows it; 0 where there is none.
fn counted(bytes: &[u8]) -> (u8, &[u8])
    ensures { length result.1.now ≤ length bytes.now }
{
    match bytes {
        [count, rest @ ..] => (*count, rest),
        [] => (0, bytes),
    }
}

impl<'a> HintReader<'a> {
    // The hints that these bytes spell, as far as they are there.
    pub fn new(bytes: &'a [u8]) -> HintReader<'a>
        ensures { length result.rows.now + length result.rest.now ≤ length bytes.now }
    {
        let (count, rest) = counted(bytes);
        let (rows, rest) = split(rest, 2 * usize::from(count));
        let (columns, rest) = counted(rest);
        HintReader {
            rows,
            columns,
            rest,
        }
    }
}

impl<'a> Iterator for HintReader<'a> {
    type Item = Hint<'a>;

    ghost remaining = { λ s. at_most (length s.rows.now + s.columns) };

    fn next(&mut self) -> Option<Hint<'a>> {
        if let [block, element, rows @ ..] = self.rows {
            self.rows = rows;
            return Some(Hint::Row {
                block: usize::from(*block),
                element: *element,
            });
        }
        self.columns = self.columns.checked_sub(1)?;
        let [block, size, tail @ ..] = self.rest else {
            return None;
        };
        let (coefficients, rest) = split(tail, usize::from(*size));
        self.rest = rest;
        Some(Hint::Column {
            block: usize::from(*block),
            coefficients,
        })
    }
}

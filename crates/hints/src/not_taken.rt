// Why a hint is not taken: the first reason against it.
ghost use Rattle.std.specs.Prelude.{Some};
ghost use Rattle.hints.specs.Reasons.{reason_of};

use std::error::Error;
use std::fmt;

#[derive(Clone, Copy, PartialEq, Eq, Debug)]
pub enum NotTaken {
    // there is no block of this number
    NoBlock,
    // the row has another length than the block
    WrongLength,
    // the symbol at this place is no code, or the coefficient is not fixed
    NoCode(usize),
    // the hint is a sum of hints of its sort in its block
    Dependent,
    // there are n - k hints already
    Spent,
}

impl fmt::Display for NotTaken {
    ghost output = { λ e. Some (reason_of e) };

    fn fmt<W: fmt::Write>(&self, f: &mut fmt::Formatter<W>) -> fmt::Result {
        match self {
            NotTaken::NoBlock => write!(f, "no block"),
            NotTaken::WrongLength => write!(f, "wrong length"),
            NotTaken::NoCode(place) => write!(f, "no code {place}"),
            NotTaken::Dependent => write!(f, "dependent"),
            NotTaken::Spent => write!(f, "spent"),
        }
    }
}

impl Error for NotTaken {}

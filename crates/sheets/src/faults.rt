// The one record of a refusal, which every layer passes up by `?`: the reason, the layer that refused, and the place of the
// byte or symbol that was judged.
ghost use Rattle.std.specs.Prelude.{◌≡◌, Some};
ghost use Rattle.sheets.specs.Faults.{number_of, layer_number_of, refused_by, line_of};

use std::error::Error;
use std::fmt;

// Why something is refused. The numbers are part of the format.
#[derive(Clone, Copy, PartialEq, Eq, Debug)]
pub enum Reason {
    MissingByte = 1,
    ExtraBytes = 2,
    OtherKind = 3,
    Limit = 4,
    NoCode = 5,
    Conjugate = 6,
    Dependent = 7,
    NotOpen = 8,
    WrongLength = 9,
    NoSymbol = 10,
    OutOfRange = 11,
    DependentHint = 12,
    Spent = 13,
    OutOfReach = 14,
    FullTally = 15,
    NoCodeword = 16,
    NoDual = 17,
}

// Which layer refuses.
#[derive(Clone, Copy, PartialEq, Eq, Debug)]
pub enum Layer {
    Sheet = 1,
    Code = 2,
    Station = 3,
    Job = 4,
}

#[derive(Clone, Copy, PartialEq, Eq, Debug)]
pub struct Fault {
    pub reason: Reason,
    pub layer: Layer,
    pub place: usize,
}

impl Layer {
    // What this layer says of the byte or symbol at a place.
    pub fn fault(self, reason: Reason, place: usize) -> Fault
        ensures { result ≡ refused_by self reason place }
    {
        Fault {
            reason,
            layer: self,
            place,
        }
    }
}

impl Fault {
    // The number of the reason. A method with a name, and no From: a refusal has two numbers.
    pub fn number(&self) -> u8
        ensures { result ≡ number_of self.now.reason }
    {
        self.reason as u8
    }

    // The number of the layer.
    pub fn layer_number(&self) -> u8
        ensures { result ≡ layer_number_of self.now.layer }
    {
        self.layer as u8
    }
}

// A refusal as a line of text.
impl fmt::Display for Fault {
    ghost output = { λ f. Some (line_of f) };

    fn fmt<W: fmt::Write>(&self, f: &mut fmt::Formatter<W>) -> fmt::Result {
        let reason = self.number();
        let layer = self.layer_number();
        let place = self.place;
        write!(f, "refused {reason} layer {layer} place {place}")
    }
}

impl Error for Fault {}

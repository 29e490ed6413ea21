// What is judged of an input or a buffer: a row of the table each.
ghost use Rattle.std.specs.Prelude.{◌≡◌, ◌≢◌, length};
ghost use Rattle.sheets.specs.declared.faults.Reason.TheVariants.{NotOpen};
ghost use Rattle.codes.specs.Fitness.{Outside};
ghost use Rattle.station.specs.Calls.{at_station};
ghost use Rattle.station.specs.Tables.{Judges};
ghost use Rattle.station.specs.Refusals.{input, output, NoSymbolIn};

use fields::Kind;
use sheets::{Fault, Layer, Reason};

// That a call is not open.
pub fn not_open() -> Fault
    ensures { result ≡ at_station NotOpen 0 }
{
    Layer::Station.fault(Reason::NotOpen, 0)
}

// An input has n symbols.
pub fn exact_input(symbols: &[u8], n: usize) -> Result<(), Fault>
    ensures { Judges (input symbols.now n) result }
{
    if symbols.len() == n {
        Ok(())
    } else {
        Err(Layer::Station.fault(Reason::WrongLength, 0))
    }
}

// A buffer has room for n symbols, and no more.
pub fn exact_output(room: usize, n: usize) -> Result<(), Fault>
    ensures { Judges (output room n) result }
{
    if room == n {
        Ok(())
    } else {
        Err(Layer::Station.fault(Reason::WrongLength, 1))
    }
}

// Every symbol is a code.
pub fn all_codes<K: Kind>(kind: &K, symbols: &[u8]) -> Result<(), Fault>
    ensures { let m = K.meaning kind.now in Judges (NoSymbolIn (Outside m 0) symbols.now) result }
{
    let size = kind.size();
    match symbols.iter().position(|x| u16::from(*x) >= size) {
        Some(i) => Err(Layer::Station.fault(Reason::NoSymbol, i)),
        None => Ok(()),
    }
}

// Answers as symbols, and buffers that are written.
ghost use Rattle.std.specs.Prelude.{◌≡◌, length, take, OnErr, IfOk};
ghost use Rattle.codes.specs.Writing.{written};
ghost use Rattle.station.specs.Calls.{wrote};
ghost use Rattle.station.specs.Standings.{replied};

use codes::SheetBytes;
use sheets::Fault;

// Symbols as an answer.
pub fn answer(symbols: &[u8]) -> SheetBytes
    ensures { written result ≡ take 64 symbols.now }
{
    let mut out = SheetBytes::empty();
    out.append(symbols);
    out
}

// The buffer becomes these symbols, where it has their length.
pub fn write(out: &mut [u8], symbols: &[u8])
    ensures { length out.old ≡ length symbols.now → out.new ≡ symbols.now }
{
    if out.len() == symbols.len() {
        out.copy_from_slice(symbols);
    }
}

// What was found is written, where nothing was refused.
pub fn hand_out(found: Result<SheetBytes, Fault>, out: &mut [u8]) -> Result<(), Fault>
    ensures kept { OnErr result (out.new ≡ out.old) }
    ensures same { IfOk found (λ s. length (written s) ≡ length out.old) → replied (λ _. wrote out.new) result ≡ replied (λ s. wrote (written s)) found }
{
    let symbols = found?;
    write(out, symbols.as_slice());
    Ok(())
}

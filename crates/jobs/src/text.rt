// The text of what a job comes to.
ghost use Rattle.std.specs.Prelude.{◌≡◌, ◌+◌, ◌*◌, ◌≤◌, ◌++◌, ◌∷◌, [], codes, decimal, length, take, Err};
ghost use Rattle.skew.specs.Few.{held};
ghost use Rattle.jobs.specs.Texts.{spaced, numbers, line, text_of, outcome_of};

use crate::outcome::Recovered;
use codes::Symbols;
use itoa::Buffer;
use sheets::Fault;
use skew::Few;

// How many bytes of text fit.
pub const ROOM: usize = 1024;

pub type Text = Few<u8, ROOM>;

// The end of a line.
fn push_end(out: &mut Text)
    ensures { held out.new ≡ take 1024 (held out.old ++ codes "\n") }
{
    out.append(b"\n");
}

// A space and a number.
fn push_number(out: &mut Text, n: usize)
    ensures text { held out.new ≡ take 1024 (held out.old ++ spaced n) }
    ensures short { length (spaced n) ≤ 21 }
{
    let mut digits = Buffer::new();
    out.append(b" ");
    out.append(digits.format(n).as_bytes());
}

// A space and a symbol.
fn push_symbol(out: &mut Text, x: u8)
    ensures text { held out.new ≡ take 1024 (held out.old ++ spaced x) }
    ensures short { length (spaced x) ≤ 4 }
{
    let mut digits = Buffer::new();
    out.append(b" ");
    out.append(digits.format(x).as_bytes());
}

// Symbols, a space before each.
fn push_symbols(out: &mut Text, symbols: &[u8])
    ensures text { held out.new ≡ take 1024 (held out.old ++ numbers symbols.now) }
    ensures short { length (numbers symbols.now) ≤ 4 * length symbols.now }
{
    for x in symbols {
        push_symbol(out, *x);
    }
}

// A line: its name, and symbols.
fn push_line(out: &mut Text, name: &[u8], symbols: &[u8])
    ensures text { held out.new ≡ take 1024 (held out.old ++ line name.now symbols.now) }
    ensures short { length (line name.now symbols.now) ≤ length name.now + 1 + 4 * length symbols.now }
{
    out.append(name);
    push_symbols(out, symbols);
    push_end(out);
}

// A line with a count before its symbols.
fn push_counted(out: &mut Text, name: &[u8], count: usize, symbols: &[u8])
    ensures text { held out.new ≡ take 1024 (held out.old ++ line name.now (count ∷ symbols.now)) }
    ensures short { length (line name.now (count ∷ symbols.now)) ≤ length name.now + 22 + 4 * length symbols.now }
{
    out.append(name);
    push_number(out, count);
    push_symbols(out, symbols);
    push_end(out);
}

// The line of a refusal.
fn push_fault(out: &mut Text, fault: Fault)
    ensures text { held out.new ≡ take 1024 (held out.old ++ text_of (outcome_of (Err fault))) }
    ensures short { length (text_of (outcome_of (Err fault))) ≤ 1024 }
{
    out.append(b"refused");
    push_number(out, usize::from(fault.number()));
    out.append(b" layer");
    push_number(out, usize::from(fault.layer_number()));
    out.append(b" place");
    push_number(out, fault.place);
    push_end(out);
}

// The text of an outcome.
pub fn write(outcome: Result<Recovered, Fault>) -> Text
    ensures { held result ≡ text_of (outcome_of outcome) }
{
    let mut out = Text::empty();
    match outcome {
        Ok(r) => {
            push_line(&mut out, b"word", r.codeword.as_slice());
            push_line(&mut out, b"message", r.message.as_slice());
            push_counted(&mut out, b"full", r.counts.full, r.full.as_slice());
            push_counted(&mut out, b"row", r.counts.row, r.row.as_slice());
            push_counted(&mut out, b"column", r.counts.column, r.column.as_slice());
        }
        Err(fault) => push_fault(&mut out, fault),
    }
    out
}

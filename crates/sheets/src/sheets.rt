// A sheet, the description of a code, and its reader. Each byte is judged when it is read, from the front; only the dimension
// waits for the lengths.
ghost use Rattle.std.specs.Prelude.{◌≡◌, ◌+◌, ◌<◌, ◌≤◌, length, MatchResult};
ghost use Rattle.sheets.specs.Sheets.{Begins, Spells, Broken, Refused};
ghost use Rattle.sheets.specs.Steps.{Headed, Judged, Measured, Counted, Stops, StopsMeasuring, StopsCounting};
ghost use Rattle.sheets.specs.Readings.{text_of, Laid, Unambiguous};

use crate::faults::{Fault, Layer, Reason};
use crate::sections::Section;

// What a sheet says. Its sections are parts of the bytes that it was read from.
#[derive(Clone, Copy, PartialEq, Eq, Debug)]
pub struct Sheet<'a> {
    pub dimension: u8,
    pub lengths: Section<'a>,
    pub parameters: Section<'a>,
    pub locators: Section<'a>,
}

const MOST_BLOCKS: usize = 12;

const MOST_IN_BLOCK: usize = 8;

const MOST_SYMBOLS: usize = 24;

// Where the block lengths begin: after the kind number, the dimension and their count.
const LENGTHS_AT: usize = 3;

// The dimension, after the kind number. The kind number is judged even where the dimension is missing.
#[tactic(auto, using(crate::proofs::Steps::head_other, crate::proofs::Steps::head_missing))]
fn read_head(number: u8, bytes: &[u8]) -> Result<u8, Fault>
    ensures { MatchResult result (λ k. Headed bytes.now number k) (λ e. Broken number bytes.now e) }
{
    match bytes {
        [kind, ..] if *kind != number => Err(Layer::Sheet.fault(Reason::OtherKind, 0)),
        [_kind, dimension, _rest @ ..] => Ok(*dimension),
        _ => Err(Layer::Sheet.fault(Reason::MissingByte, bytes.len())),
    }
}

// The byte at a place, which has to be there and from `low` to `high`.
#[tactic(auto, using(crate::proofs::Steps::stops_missing, crate::proofs::Steps::stops_limit, crate::proofs::Steps::judged))]
fn read_limited(bytes: &[u8], at: usize, low: usize, high: usize) -> Result<usize, Fault>
    requires { at ≤ length bytes.now }
    ensures { MatchResult result (λ x. Judged bytes.now at low high x) (λ e. Stops bytes.now at low high e) }
{
    let missing = Layer::Sheet.fault(Reason::MissingByte, bytes.len());
    let x = usize::from(*bytes.get(at).ok_or(missing)?);
    if x < low || x > high {
        return Err(Layer::Sheet.fault(Reason::Limit, at));
    }
    Ok(x)
}

// The block lengths and their sum. A length is refused where it is none, or where it takes the sum past its limit.
#[tactic(auto, using(crate::proofs::Steps::measured_more))]
fn read_lengths(bytes: &[u8], blocks: usize) -> Result<(&[u8], usize), Fault>
    requires opened { 3 ≤ length bytes.now }
    requires few { blocks ≤ 12 }
    ensures { MatchResult result (λ p. Measured bytes.now blocks p.0.now p.1) (λ e. StopsMeasuring bytes.now blocks e) }
{
    let mut total = 0;
    for at in LENGTHS_AT..LENGTHS_AT + blocks {
        let room = MOST_IN_BLOCK.min(MOST_SYMBOLS - total);
        total += read_limited(bytes, at, 1, room)?;
    }
    Ok((&bytes[LENGTHS_AT..LENGTHS_AT + blocks], total))
}

// The bytes of a section of which the count is known: the count, and then as many bytes.
fn read_counted(bytes: &[u8], at: usize, count: usize) -> Result<&[u8], Fault>
    requires { at ≤ length bytes.now }
    ensures { MatchResult result (λ s. Counted bytes.now at count s.now) (λ e. StopsCounting bytes.now at count e) }
{
    let _count = read_limited(bytes, at, count, count)?;
    let missing = Layer::Sheet.fault(Reason::MissingByte, bytes.len());
    bytes[at + 1..].get(..count).ok_or(missing)
}

// The sheet at the front of the bytes, and where it ends.
#[tactic(auto, using(crate::proofs::Fronts::blocks_stop, crate::proofs::Fronts::lengths_stop))]
pub fn read_front(number: u8, bytes: &[u8]) -> Result<(Sheet<'_>, usize), Fault>
    ensures { MatchResult result (λ p. Laid p.0 × Begins number bytes.now (text_of p.0) p.1) (λ e. Broken number bytes.now e) }
{
    let dimension = read_head(number, bytes)?;
    let blocks = read_limited(bytes, LENGTHS_AT - 1, 1, MOST_BLOCKS)?;
    let (lengths, total) = read_lengths(bytes, blocks)?;
    if dimension < 1 || dimension as usize > total {
        return Err(Layer::Sheet.fault(Reason::Limit, 1));
    }
    let parameters_at = LENGTHS_AT + blocks;
    let parameters = read_counted(bytes, parameters_at, blocks)?;
    let locators_at = parameters_at + 1 + blocks;
    let locators = read_counted(bytes, locators_at, total)?;
    let sheet = Sheet {
        dimension,
        lengths: Section::Lengths(lengths, LENGTHS_AT),
        parameters: Section::Parameters(parameters, parameters_at + 1),
        locators: Section::Locators(locators, locators_at + 1),
    };
    Ok((sheet, locators_at + 1 + total))
}

// The sheet that the bytes are, and nothing more.
#[tactic(auto, using(crate::specs::Sheets::broken, crate::proofs::Fronts::spells, crate::proofs::Fronts::extra_stops))]
pub fn read_sheet(number: u8, bytes: &[u8]) -> Result<Sheet<'_>, Fault>
    ensures { MatchResult result (λ s. Laid s × Spells number bytes.now (text_of s)) (λ e. Refused number bytes.now e) }
{
    let (sheet, end) = read_front(number, bytes)?;
    if end < bytes.len() {
        return Err(Layer::Sheet.fault(Reason::ExtraBytes, end));
    }
    Ok(sheet)
}

// No byte string is both a sheet and refused, and each has one answer: a theorem, which this contract asks for.
pub fn sheets_stand() -> u8
    ensures { Unambiguous }
{
    0
}

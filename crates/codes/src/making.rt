// A code from a sheet: what the sheet says is judged over the kind, and copied only then.
ghost use Rattle.std.specs.Prelude.{◌≡◌, ℕ, ◌+◌, ◌<◌, ◌≤◌, ◌⊎◌, ◌++◌, map, length, take, MatchResult};
ghost use Rattle.std.specs.Option as options;
ghost use Rattle.ranks.specs.Ranks.{Tells};
ghost use Rattle.codes.specs.Holdings.{held, stops};
ghost use Rattle.ranks.specs.Ranks.{total};
ghost use Rattle.sheets.specs.Sheets.{Whole, Spells, Refused, Text};
ghost use Rattle.sheets.specs.Readings.{text_of, Laid};
ghost use Rattle.codes.specs.Fitness.{at_code, Outside, First, AllNot, Related, ApartUntil, pointed, Gathered, Breaks, Unfit, Made, OneFault};

use super::lists::{Course, Symbols};
use super::shape::Code;
use fields::Kind;
use ranks::{conjugate, dependent_at};
use sheets::{Fault, Layer, Reason, Sheet, read_sheet};
use skew::Point;

// The first byte that is below `least` or no code.
fn first_outside<K: Kind>(kind: &K, bytes: &[u8], least: u8) -> Option<usize>
    ensures { let m = K.meaning kind.now in options.MatchOption result (AllNot (Outside m least) bytes.now) (λ i. First (Outside m least) bytes.now i) }
{
    let size = kind.size();
    bytes
        .iter()
        .position(|x| *x < least || u16::from(*x) >= size)
}

// Whether parameter j is conjugate to an earlier one.
fn related<K: Kind>(kind: &K, parameters: &[u8], j: usize) -> bool
    requires { j < length parameters.now }
    ensures { let m = K.meaning kind.now in Tells result (Related m parameters.now j) }
{
    let last = parameters[j];
    parameters[..j].iter().any(|a| conjugate(kind, *a, last))
}

// The first parameter that is.
fn first_related<K: Kind>(kind: &K, parameters: &[u8]) -> Option<usize>
    ensures { let m = K.meaning kind.now in let ps = parameters.now in
        options.MatchOption result (ApartUntil m ps (length ps)) (λ j. (j < length ps) × ApartUntil m ps j × Related m ps j) }
{
    // by place, which is what `related` is asked
    for j in 0..parameters.len() {
        if related(kind, parameters, j) {
            return Some(j);
        }
    }
    None
}

// The locators of one block, each with the parameter of the block.
fn extend(course: &mut Course, parameter: u8, locators: &[u8])
    ensures { stops course.new ≡ take 24 (stops course.old ++ map (pointed parameter) locators.now) }
{
    for b in locators {
        course.push(Point {
            parameter,
            locator: *b,
        });
    }
}

// The points of all blocks, where the locators of each are independent. The three sections stand apart, as bytes, since the promise
// speaks of their numbers alone.
fn gather<K: Kind>(
    kind: &K,
    lengths: &[u8],
    parameters: &[u8],
    locators: &[u8],
    base: usize,
) -> Result<Course, Fault>
    requires many { length parameters.now ≡ length lengths.now }
    requires sum { length locators.now ≡ total lengths.now }
    requires few { total lengths.now ≤ 24 }
    requires near { base ≤ 100 }
    ensures { let m = K.meaning kind.now in
        MatchResult result (λ c. Gathered m lengths.now parameters.now locators.now (stops c)) (λ e. Breaks m lengths.now locators.now base e) }
{
    let mut course = Course::empty();
    // the place among all locators, which a refusal names
    let mut at = 0;
    for (n, parameter) in lengths.iter().zip(parameters) {
        let size = usize::from(*n);
        let part = &locators[at..at + size];
        if let Some(j) = dependent_at(kind, part) {
            return Err(Layer::Code.fault(Reason::Dependent, base + (at + j)));
        }
        extend(&mut course, *parameter, part);
        at += size;
    }
    Ok(course)
}

// At most 24 numbers, copied.
fn copied(source: &[u8]) -> Symbols
    requires { length source.now ≤ 24 }
    ensures { held result ≡ source.now }
{
    Symbols::from_slice(source).unwrap_or(Symbols::empty())
}

// The code of a sheet, or why it is none: numbers that are no codes first, then parameters that are conjugate, then locators that
// depend on others.
fn make<K: Kind>(kind: &K, sheet: Sheet<'_>) -> Result<Code, Fault>
    requires laid { Laid sheet }
    requires whole { Whole (text_of sheet).dimension (text_of sheet).blocks (text_of sheet).parameters (text_of sheet).locators }
    ensures { let m = K.meaning kind.now in MatchResult result (λ c. Made m (text_of sheet.entry) c) (λ e. Unfit m (text_of sheet.entry) e) }
{
    let lengths = sheet.lengths.bytes();
    let parameters = sheet.parameters.bytes();
    let locators = sheet.locators.bytes();
    if let Some(i) = first_outside(kind, parameters, 1) {
        return Err(Layer::Code.fault(Reason::NoCode, sheet.parameters.offset() + i));
    }
    if let Some(i) = first_outside(kind, locators, 0) {
        return Err(Layer::Code.fault(Reason::NoCode, sheet.locators.offset() + i));
    }
    if let Some(j) = first_related(kind, parameters) {
        return Err(Layer::Code.fault(Reason::Conjugate, sheet.parameters.offset() + j));
    }
    let course = gather(kind, lengths, parameters, locators, sheet.locators.offset())?;
    Ok(Code {
        dimension: sheet.dimension as usize,
        lengths: copied(lengths),
        course,
    })
}

// The lawful code that the bytes describe for this kind, or the refusal of the rules.
pub fn set_up<K: Kind>(kind: &K, bytes: &[u8]) -> Result<Code, Fault>
    ensures { let m = K.meaning kind.now in let b = bytes.now in
        MatchResult result (λ c. (t : Text) × Spells m.number b t × Made m t c) (λ e. Refused m.number b e ⊎ ((t : Text) × Spells m.number b t × Unfit m t e)) }
{
    let number = kind.number();
    let sheet = read_sheet(number, bytes)?;
    make(kind, sheet)
}

// Over every kind, a sheet that reads well has at most one fault of its code; so `set_up` has one answer, with `Made`, which says that
// a sheet of which a code is made has none. A theorem, which this contract asks for.
pub fn faults_stand<K: Kind>(kind: &K) -> u8
    ensures { OneFault (K.meaning kind.now) }
{
    0
}

// Writing the sheet of a code.
ghost use Rattle.std.specs.Prelude.{◌≡◌, ◌<◌, ◌≤◌, map, length, get_or, take};
ghost use Rattle.codes.specs.Holdings.{held, stops};
ghost use Rattle.sheets.specs.Sheets.{Text, spelled};
ghost use Rattle.codes.specs.Writing.{written, Described};

use super::lists::{SheetBytes, Symbols};
use super::shape::Code;
use skew::Point;

// The parameter of the point at a place, and 0 past the end.
fn parameter_at(points: &[Point], at: usize) -> u8
    ensures { result ≡ (get_or points.now at (record { parameter = 0; locator = 0 })).parameter }
{
    points.get(at).map_or(0, |p| p.parameter)
}

// The parameter of each block: that of its first point.
fn parameters_of(code: &Code) -> Symbols
    ensures { (t : Text) → Described code.now t → held result ≡ t.parameters }
{
    let points = code.course.as_slice();
    let lengths = code.lengths.as_slice();
    let mut out = Symbols::empty();
    // where the block begins among the points, of which only the first is read
    let mut at: usize = 0;
    for n in lengths {
        let parameter = parameter_at(points, at);
        out.push(parameter);
        at = at.saturating_add(usize::from(*n));
    }
    out
}

// All locators in order.
fn locators_of(code: &Code) -> Symbols
    ensures { held result ≡ take 24 (map (λ p. p.locator) (stops code.now.course)) }
{
    let points = code.course.as_slice();
    let mut out = Symbols::empty();
    for p in points {
        out.push(p.locator);
    }
    out
}

// A number that is at most 255, as a byte; 255 for a larger one.
pub fn byte(n: usize) -> u8
    ensures value { n ≤ 255 → result ≡ n }
    ensures past { 255 < n → result ≡ 255 }
{
    u8::try_from(n).unwrap_or(255)
}

// The sheet of a code under this kind number: for the code of a sheet, that sheet.
pub fn write_sheet(number: u8, code: &Code) -> SheetBytes
    ensures { (t : Text) → Described code.now t → written result ≡ spelled number t }
{
    let parameters = parameters_of(code);
    let locators = locators_of(code);
    let blocks = byte(code.lengths.len());
    let mut out = SheetBytes::empty();
    out.append(&[number, byte(code.dimension), blocks]);
    out.append(code.lengths.as_slice());
    out.append(&[blocks]);
    out.append(parameters.as_slice());
    out.append(&[byte(locators.len())]);
    out.append(locators.as_slice());
    out
}

// The dual code, over the mirror of the kind.
ghost use Rattle.std.specs.Prelude.{◌≡◌, ◌≤◌, length, MatchOption};
ghost use Rattle.fields.specs.Elements.{elems, ops};
ghost use Rattle.skew.specs.Annihilators.{places};
ghost use Rattle.codes.specs.Holdings.{held, stops};
ghost use Rattle.codes.specs.Duals.{dual_points};
ghost use Rattle.codes.specs.Writing.{written};
ghost use Rattle.codes.specs.Dualizing.{turned_points, Dualized, DualSheet, Undual};

use super::duals::dual_locators;
use super::lists::{Course, SheetBytes, Symbols};
use super::shape::Code;
use super::writing::write_sheet;
use fields::{Kind, across};
use skew::Point;

// The points of the dual code: the untwisted parameters with the dual locators.
fn turned<K: Kind>(kind: &K, points: &[Point], locators: &Symbols) -> Course
    requires size { length (held locators.now) ≡ length points.now }
    requires room { length points.now ≤ 24 }
    ensures exact { let m = K.meaning kind.now in stops result ≡ turned_points m points.now (held locators.now) }
    ensures points { let m = K.meaning kind.now in places m (stops result) ≡ dual_points (ops m) (places m points.now) (elems m (held locators.now)) }
{
    let mut out = Course::empty();
    for (p, b) in points.iter().zip(locators.as_slice()) {
        let parameter = kind.untwist(p.parameter);
        out.push(Point {
            parameter,
            locator: *b,
        });
    }
    out
}

// The dual of a code, of dimension n - k: its codewords are the words whose sum of products with every codeword is 0. Nothing
// where k is n.
pub fn dual<K: Kind>(kind: &K, code: &Code) -> Option<Code>
    ensures { let m = K.meaning kind.now in MatchOption result (Undual m code.now) (λ d. Dualized m code.now d) }
{
    let points = code.course.as_slice();
    if code.dimension >= points.len() {
        return None;
    }
    let locators = dual_locators(kind, points)?;
    let course = turned(kind, points, &locators);
    Some(Code {
        dimension: points.len() - code.dimension,
        lengths: code.lengths,
        course,
    })
}

// The sheet of the dual code over the mirror: 5 + 2l + n bytes. Nothing where k is n.
pub fn dual_sheet<K: Kind>(kind: &K, code: &Code) -> Option<SheetBytes>
    ensures { let m = K.meaning kind.now in MatchOption result (Undual m code.now) (λ s. DualSheet m code.now (written s)) }
{
    let d = dual(kind, code)?;
    let number = across(kind.number());
    Some(write_sheet(number, &d))
}

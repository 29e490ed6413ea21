// The places that are left of a word when its column hints are taken away.
ghost use Rattle.std.specs.Prelude.{◌≡◌, ℕ, ◌<◌, ◌≤◌, ◌++◌, length, take, slice_index_or};
ghost use Rattle.fields.specs.Meaning.{Meaning};
ghost use Rattle.fields.specs.Elements.{elems};
ghost use Rattle.skew.specs.Polynomials.{coefficients};
ghost use Rattle.skew.specs.Pairs.{spots};
ghost use Rattle.ranks.specs.Reduction.{row as row_of, InForm};
ghost use Rattle.codes.specs.Holdings.{held, stops};
ghost use Rattle.hints.specs.Holdings.{padded, no_block};
ghost use Rattle.recovery.specs.Steps.{locators_of, block_spots, all_spots};
ghost use Rattle.recovery.specs.Sites.{sites_in};

use super::spots::Spots;
use codes::Code;
use fields::Kind;
use hints::{Hints, padded_row};
use ranks::{Form, Row, cleared};
use skew::{Point, Polynomial, Site, value};

// The locators of at most eight points, with zeros behind.
fn locator_row(points: &[Point]) -> Row
    requires { length points.now ≤ 8 }
    ensures { (m : Meaning) → row_of m result ≡ padded m (elems m (locators_of points.now)) }
{
    Row::from_fn(|i| points.get(i).map_or(0, |p| p.locator))
}

// The places of one block that are left, behind those that are there, as far as there is room: locator and symbol less what the
// column hints take from them, and the polynomial at that symbol.
fn add_sites<K: Kind>(
    kind: &K,
    columns: &Form,
    points: &[Point],
    symbols: &[u8],
    killer: &Polynomial,
    out: &mut Spots,
)
    requires some { 1 ≤ length points.now }
    requires few { length points.now ≤ 8 }
    requires same { length symbols.now ≡ length points.now }
    ensures { let m = K.meaning kind.now in let f = columns.now in
        (InForm m f → spots m (sites_in out.new)
        ≡ take 24 (spots m (sites_in out.old) ++ block_spots m f (length points.now) (elems m (coefficients killer.now)) points.now symbols.now)) }
{
    let parameter = points[0].parameter;
    let places = locator_row(points);
    let locators = cleared(kind, columns, &places);
    let received = padded_row(symbols);
    let left = cleared(kind, columns, &received);
    // by index, since a form and two rows are read at one place
    for p in 0..points.len() {
        if columns.rows[p].is_none() {
            let second = value(kind, killer.as_slice(), parameter, left.cells[p]);
            out.push(Site {
                parameter,
                locator: locators.cells[p],
                second,
            });
        }
    }
}

// The places of all blocks that are left.
pub fn left_sites<K: Kind>(
    kind: &K,
    code: &Code,
    hints: &Hints,
    word: &[u8],
    killer: &Polynomial,
) -> Spots
    requires { length word.now ≡ length (stops code.now.course) }
    ensures { let m = K.meaning kind.now in let ns = held code.now.lengths in let bs = hints.now.blocks in
        (((i : ℕ) → i < length ns → InForm m (slice_index_or bs i no_block).columns) → spots m (sites_in result)
        ≡ take 24 (all_spots m ns bs (elems m (coefficients killer.now)) (stops code.now.course) word.now)) }
{
    let points = code.course.as_slice();
    let lengths = code.lengths.as_slice();
    let mut out = Spots::empty();
    // where the block begins, among points and symbols alike
    let mut at = 0;
    for (n, block) in lengths.iter().zip(&hints.blocks) {
        let end = at + usize::from(*n);
        add_sites(
            kind,
            &block.columns,
            &points[at..end],
            &word[at..end],
            killer,
            &mut out,
        );
        at = end;
    }
    out
}

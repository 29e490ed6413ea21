// The polynomial that takes the row hints to zero.
ghost use Rattle.std.specs.Prelude.{◌≡◌, ℕ, ◌<◌, ◌++◌, length, take, slice_index_or};
ghost use Rattle.fields.specs.Elements.{elem};
ghost use Rattle.skew.specs.Annihilators.{places};
ghost use Rattle.ranks.specs.Reduction.{rows_of, InForm};
ghost use Rattle.codes.specs.Holdings.{held, stops};
ghost use Rattle.hints.specs.Holdings.{no_block};
ghost use Rattle.recovery.specs.Steps.{hint_points, all_hint_points};

use codes::{Code, Course};
use fields::Kind;
use hints::{Hints, element_of};
use ranks::Form;
use skew::Point;

// The row hints of one block, as points with its parameter, behind those that are there, as far as there is room.
fn add_points<K: Kind>(kind: &K, form: &Form, parameter: u8, out: &mut Course)
    ensures { let m = K.meaning kind.now in let f = form.now in
        (InForm m f → places m (stops out.new) ≡ take 24 (places m (stops out.old) ++ hint_points m (elem m parameter) (rows_of m f))) }
{
    for slot in &form.rows {
        if let Some(row) = slot {
            let locator = element_of(kind, row);
            out.push(Point { parameter, locator });
        }
    }
}

// The row hints of all blocks.
pub fn row_points<K: Kind>(kind: &K, code: &Code, hints: &Hints) -> Course
    ensures { let m = K.meaning kind.now in let ns = held code.now.lengths in let bs = hints.now.blocks in
        (((i : ℕ) → i < length ns → InForm m (slice_index_or bs i no_block).rows) → places m (stops result) ≡ take 24 (all_hint_points m ns bs (stops code.now.course))) }
{
    let points = code.course.as_slice();
    let lengths = code.lengths.as_slice();
    let mut out = Course::empty();
    // where the block begins among the points, of which only the first is read
    let mut at = 0;
    for (n, block) in lengths.iter().zip(&hints.blocks) {
        add_points(kind, &block.rows, points[at].parameter, &mut out);
        at += usize::from(*n);
    }
    out
}

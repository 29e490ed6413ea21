// Rows of eight fixed coefficients, and reduced forms of them.
ghost use Rattle.std.specs.Prelude.{◌≡◌, ℕ, ◌<◌, [], length, slice_index, MatchOption};
ghost use Rattle.std.specs.List.{AllByRecursion};
ghost use Rattle.fields.specs.Field.{Zero, plus, scale};
ghost use Rattle.fields.specs.Meaning.{Meaning, digit_row};
ghost use Rattle.fields.specs.Elements.{elem, ops};
ghost use Rattle.ranks.specs.Reduction.{row as row_of, marks_of, rows_of, InForm, Inserted, Row as FixedRow};
ghost use Rattle.ranks.specs.RowSteps.{clear, PivotAt, Swept};

use fields::Kind;
use std::array;

// How many places a row has.
pub const WIDTH: usize = 8;

// A row is of codes, in fixed memory; where fewer than eight places are in use, zeros follow.
#[derive(Clone, Copy, PartialEq, Eq, Debug)]
pub struct Row {
    pub cells: [u8; WIDTH],
}

// The row with its pivot at place p stands at place p, in fixed memory. A form is of no kind, so that it is reduced is said of it for each kind.
#[derive(Clone, Copy, PartialEq, Eq, Debug)]
pub struct Form {
    pub rows: [Option<Row>; WIDTH],
}

// Where a row is not 0, and the inverse of what stands there.
#[derive(Clone, Copy, PartialEq, Eq, Debug)]
struct Pivot {
    place: usize,
    inverse: u8,
}

// a plus c times b, place by place.
fn combined<K: Kind>(kind: &K, a: &Row, c: u8, b: &Row) -> Row
    ensures { let m = K.meaning kind.now in
        row_of m result ≡ plus (ops m) (row_of m a.now) (scale (ops m) (elem m c) (row_of m b.now)) }
{
    Row::from_fn(|i| {
        let term = kind.product(c, b.cells[i]);
        kind.sum(a.cells[i], term)
    })
}

// The first place where a row is not 0; nothing where it is 0 everywhere. A loop, since the library has no lemma on `find_map`.
fn leading<K: Kind>(kind: &K, row: &Row) -> Option<Pivot>
    ensures { let m = K.meaning kind.now in let h = row_of m row.now in
        MatchOption result (AllByRecursion (Zero (ops m)) h) (λ t. PivotAt m h t.place t.inverse) }
{
    for (place, x) in row.cells.iter().enumerate() {
        if let Some(inverse) = kind.inverse(*x) {
            return Some(Pivot { place, inverse });
        }
    }
    None
}

// The row less each row of the form times what the row has at that one's pivot.
pub fn cleared<K: Kind>(kind: &K, form: &Form, row: &Row) -> Row
    ensures { let m = K.meaning kind.now in
        (InForm m form.now → row_of m result ≡ clear (ops m) (marks_of form.now) (rows_of m form.now) (row_of m row.now)) }
{
    let mut left = *row;
    for (slot, x) in form.rows.iter().zip(&row.cells) {
        if let Some(other) = slot {
            let minus = kind.opposite(*x);
            left = combined(kind, &left, minus, other);
        }
    }
    left
}

// Makes each row 0 at the place p by the row that has 1 there.
fn sweep<K: Kind>(kind: &K, form: &mut Form, p: usize, by: &Row)
    requires { p < 8 }
    ensures { let m = K.meaning kind.now in Swept m form.old p (row_of m by.now) form.new }
{
    for slot in form.rows.iter_mut() {
        if let Some(row) = slot {
            let minus = kind.opposite(row.cells[p]);
            *row = combined(kind, row, minus, by);
        }
    }
}

impl Row {
    // The row of zeros.
    pub const ZERO: Row = Row { cells: [0; WIDTH] };

    // The row with f(i) at each place i.
    pub fn from_fn<F: Fn(usize) -> u8>(f: F) -> Row
        requires { (i : ℕ) → i < 8 → F.pre f i }
        ensures { (length result.cells ≡ 8) × ((i : ℕ) → i < 8 → F.post f i (slice_index result.cells i)) }
    {
        Row {
            cells: array::from_fn(f),
        }
    }

    // The digits of an element, which are fixed.
    pub fn of_digits<K: Kind>(kind: &K, x: u8) -> Row
        ensures { result.cells ≡ digit_row (K.meaning kind.now) x }
    {
        Row {
            cells: kind.digits(x),
        }
    }
}

impl Form {
    // No rows.
    pub fn empty() -> Form
        ensures { (m : Meaning) → InForm m result × (rows_of m result ≡ []) }
    {
        Form {
            rows: [None; WIDTH],
        }
    }

    // Puts in one row more, if it is not among the sums of the rows with fixed coefficients: then the answer is true, and
    // the new rows are reduced again and have the sums of the old ones and the row. Else nothing is changed.
    pub fn insert<K: Kind>(&mut self, kind: &K, row: &Row) -> bool
        ensures { let m = K.meaning kind.now in let f = self.old in let h = row_of m row.now in
            (InForm m f → FixedRow (ops m) 8 h → Inserted m f h result self.new) }
    {
        let left = cleared(kind, self, row);
        let Some(at) = leading(kind, &left) else {
            return false;
        };
        let new = combined(kind, &Row::ZERO, at.inverse, &left);
        sweep(kind, self, at.place, &new);
        self.rows[at.place] = Some(new);
        true
    }
}

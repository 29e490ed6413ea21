// The splitting of a difference with a full part of least weight.
ghost use Rattle.std.specs.Prelude.{◌≡◌, ℕ, ◌-◌, ◌<◌, ◌≤◌, List, ◌++◌, map, length, replicate, get_or, slice_index};
ghost use Rattle.fields.specs.Field.{plus};
ghost use Rattle.fields.specs.Elements.{Elem, elem, codes, ops};
ghost use Rattle.ranks.specs.Reduction.{row as row_of, InForm};
ghost use Rattle.codes.specs.Holdings.{held};
ghost use Rattle.hints.specs.Splittings.{Given};
ghost use Rattle.hints.specs.Holdings.{BlockHolds, Holds};
ghost use Rattle.hints.specs.Shown.{from_digits, reduced_by};
ghost use Rattle.hints.specs.Outcomes.{BlockSplit, Divided, LeastAnswer};

use super::block::BlockHints;
use super::holder::Hints;
use super::parts::Parts;
use codes::Symbols;
use fields::Kind;
use ranks::{Form, Row, cleared};

// The element with these digits.
pub fn element_of<K: Kind>(kind: &K, row: &Row) -> u8
    ensures { let m = K.meaning kind.now in result ≡ (from_digits m (row_of m row.now)).code }
{
    let mut total = 0;
    for (i, digit) in row.cells.iter().enumerate() {
        let base = kind.basis(i + 1);
        let term = kind.product(*digit, base);
        total = kind.sum(total, term);
    }
    total
}

// The element less what the elements whose digits stand in the form span.
fn reduced<K: Kind>(kind: &K, form: &Form, x: u8) -> u8
    ensures { let m = K.meaning kind.now in (InForm m form.now → result ≡ (reduced_by m form.now (elem m x)).code) }
{
    let digits = Row::of_digits(kind, x);
    let left = cleared(kind, form, &digits);
    element_of(kind, &left)
}

// So at each place.
fn reduced_row<K: Kind>(kind: &K, form: &Form, row: &Row) -> Row
    ensures { let m = K.meaning kind.now in
        (InForm m form.now → result.cells ≡ codes (map (reduced_by m form.now) (row_of m row.now))) }
{
    Row::from_fn(|i| reduced(kind, form, row.cells[i]))
}

// a less b, place by place.
fn less<K: Kind>(kind: &K, a: &Row, b: &Row) -> Row
    ensures { let m = K.meaning kind.now in
        result.cells ≡ codes (plus (ops m) (row_of m a.now) (map (ops m).neg (row_of m b.now))) }
{
    Row::from_fn(|i| {
        let minus = kind.opposite(b.cells[i]);
        kind.sum(a.cells[i], minus)
    })
}

// At most eight symbols, with zeros behind; no more than eight are looked at.
pub fn padded_row(symbols: &[u8]) -> Row
    ensures few { let e = symbols.now in (length e ≤ 8 → result.cells ≡ e ++ replicate (8 - length e) 0) }
    ensures each { (i : ℕ) → i < 8 → slice_index result.cells i ≡ get_or symbols.now i 0 }
{
    Row::from_fn(|i| symbols.get(i).copied().unwrap_or(0))
}

// The parts of one block, behind those of the others.
fn split_block<K: Kind>(kind: &K, hints: &BlockHints, e: &[u8], parts: &mut Parts)
    requires { length e.now ≤ 8 }
    ensures { let m = K.meaning kind.now in let e = e.entry.now in
        ((g : Given (Elem m)) → BlockHolds m (length e) hints.now g → BlockSplit m e g parts.old parts.new) }
{
    let n = e.len();
    let start = padded_row(e);
    let left = cleared(kind, &hints.columns, &start);
    let full = reduced_row(kind, &hints.rows, &left);
    let row = less(kind, &left, &full);
    let column = less(kind, &start, &left);
    parts.full.append(&full.cells[..n]);
    parts.row.append(&row.cells[..n]);
    parts.column.append(&column.cells[..n]);
}

// The parts of a difference in at most twelve blocks of at most eight symbols, at most 24 in all: a splitting by the hints, and none
// has a full part of less weight.
pub fn least_splitting<K: Kind>(kind: &K, lengths: &[u8], hints: &Hints, difference: &[u8]) -> Parts
    ensures { let m = K.meaning kind.now in let ns = lengths.now in let d = difference.now in
        ((k : ℕ) (gs : List (Given (Elem m))) → Holds m ns k hints.now gs → Divided ns d → LeastAnswer m ns gs d result) }
{
    let mut parts = Parts {
        full: Symbols::empty(),
        row: Symbols::empty(),
        column: Symbols::empty(),
    };
    let mut rest = difference;
    for (n, block) in lengths.iter().zip(&hints.blocks) {
        if *n > 8 {
            return parts;
        }
        let Some((here, behind)) = rest.split_at_checked(*n as usize) else {
            return parts;
        };
        split_block(kind, block, here, &mut parts);
        rest = behind;
    }
    parts
}

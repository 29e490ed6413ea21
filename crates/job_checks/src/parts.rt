// What a job says of a word, by which the parts that its text gives are judged.
use crate::texts::Shown;
use cases::split;
use fields::Kind;
use jobs::Job;
use ranks::{Form, Row, WIDTH, weight};

// How many blocks a code may have.
const BLOCKS: usize = 12;

// The hints of one block, as the sums that they have.
#[derive(Clone, Copy)]
struct Spans {
    rows: Form,
    columns: Form,
}

impl Spans {
    fn none() -> Spans {
        Spans {
            rows: Form::empty(),
            columns: Form::empty(),
        }
    }

    // Whether each symbol is a sum of row hints times fixed coefficients.
    fn make_each<K: Kind>(&self, kind: &K, symbols: &[u8]) -> bool {
        symbols.iter().all(|x| {
            let mut rows = self.rows;
            !rows.insert(kind, &Row::of_digits(kind, *x))
        })
    }

    // Whether the symbols in a row are a sum of column hints times elements: then each of their rows of digits is one of column hints times fixed
    // coefficients.
    fn make_all<K: Kind>(&self, kind: &K, symbols: &[u8]) -> bool {
        (0..WIDTH).all(|d| {
            let mut columns = self.columns;
            !columns.insert(kind, &digits(kind, symbols, d))
        })
    }
}

// Digit d of each symbol.
fn digits<K: Kind>(kind: &K, symbols: &[u8], d: usize) -> Row {
    Row::from_fn(|i| {
        let x = symbols.get(i).copied().unwrap_or(0);
        kind.digits(x).get(d).copied().unwrap_or(0)
    })
}

// The symbol at a place; 0 past the end.
fn at(symbols: &[u8], i: usize) -> u8 {
    symbols.get(i).copied().unwrap_or(0)
}

#[derive(Drop)]
pub struct Told<'a> {
    lengths: &'a [u8],
    word: &'a [u8],
    blocks: [Spans; BLOCKS],
}

impl<'a> Told<'a> {
    pub fn new<K: Kind>(kind: &K, job: &Job<'a>) -> Told<'a> {
        let mut told = Told {
            lengths: job.lengths,
            word: job.word.bytes(),
            blocks: [Spans::none(); BLOCKS],
        };
        told.rows(kind, job.rows.bytes());
        told.columns(kind, job.columns.bytes());
        told
    }

    fn rows<K: Kind>(&mut self, kind: &K, bytes: &[u8]) {
        let mut rest = bytes;
        for _ in 0..bytes.len() {
            let [block, element, behind @ ..] = rest else {
                return;
            };
            if let Some(spans) = self.blocks.get_mut(usize::from(*block).wrapping_sub(1)) {
                let _more = spans.rows.insert(kind, &Row::of_digits(kind, *element));
            }
            rest = behind;
        }
    }

    fn columns<K: Kind>(&mut self, kind: &K, bytes: &[u8]) {
        let mut rest = bytes;
        for _ in 0..bytes.len() {
            let [block, behind @ ..] = rest else {
                return;
            };
            let place = usize::from(*block).wrapping_sub(1);
            let size = self.lengths.get(place).copied().unwrap_or(0);
            let (coefficients, others) = split(behind, usize::from(size));
            let row = Row::from_fn(|i| coefficients.get(i).copied().unwrap_or(0));
            if let Some(spans) = self.blocks.get_mut(place) {
                let _more = spans.columns.insert(kind, &row);
            }
            rest = others;
        }
    }

    // Whether the parts are a splitting of the word less the codeword, with as many full errors as are counted.
    pub fn splits<K: Kind>(&self, kind: &K, shown: &Shown) -> bool {
        let [full, ..] = shown.counts();
        let errors = weight(kind, self.lengths, shown.full());
        self.adds_up(kind, shown) && errors == Some(usize::from(full)) && self.spans(kind, shown)
    }

    fn adds_up<K: Kind>(&self, kind: &K, shown: &Shown) -> bool {
        let codeword = shown.codeword();
        let (full, row, column) = (shown.full(), shown.row(), shown.column());
        let lengths = [codeword.len(), full.len(), row.len(), column.len()];
        if lengths.iter().any(|n| *n != self.word.len()) {
            return false;
        }
        // Five words are looked at in one place, so it is the places that are gone over.
        (0..self.word.len()).all(|i| {
            let inner = kind.sum(at(row, i), at(column, i));
            let error = kind.sum(at(full, i), inner);
            kind.sum(at(codeword, i), error) == self.word[i]
        })
    }

    // Whether the row part and the column part are of the hints of each block.
    fn spans<K: Kind>(&self, kind: &K, shown: &Shown) -> bool {
        let mut rows = shown.row();
        let mut columns = shown.column();
        for (n, spans) in self.lengths.iter().zip(&self.blocks) {
            let (row_block, other_rows) = split(rows, usize::from(*n));
            let (column_block, other_columns) = split(columns, usize::from(*n));
            if !spans.make_each(kind, row_block) || !spans.make_all(kind, column_block) {
                return false;
            }
            rows = other_rows;
            columns = other_columns;
        }
        rows.is_empty() && columns.is_empty()
    }
}

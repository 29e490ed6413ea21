// What a station was told of a word, by which the parts that it gives are judged.
use crate::parts::Parts;
use cases::split;
use codes::Symbols;
use fields::Kind;
use ranks::{Form, Row, WIDTH, weight};

// How many blocks a code may have.
const BLOCKS: usize = 12;

// The hints of one block that were taken, as the sums that they have.
#[derive(Clone, Copy)]
struct Spans {
    rows: Form,
    columns: Form,
}

impl Spans {
    fn none() -> Spans {
        Spans {
            rows: Form::empty(),
            columns: Form::empty(),
        }
    }

    // Whether each symbol is a sum of row hints times fixed coefficients.
    fn make_each<K: Kind>(&self, kind: &K, symbols: &[u8]) -> bool {
        symbols.iter().all(|x| {
            let mut rows = self.rows;
            !rows.insert(kind, &Row::of_digits(kind, *x))
        })
    }

    // Whether the symbols in a row are a sum of column hints times elements: then each of their rows of digits is one of column hints times fixed
    // coefficients.
    fn make_all<K: Kind>(&self, kind: &K, symbols: &[u8]) -> bool {
        (0..WIDTH).all(|d| {
            let mut columns = self.columns;
            !columns.insert(kind, &digits(kind, symbols, d))
        })
    }
}

// Digit d of each symbol.
fn digits<K: Kind>(kind: &K, symbols: &[u8], d: usize) -> Row {
    Row::from_fn(|i| {
        let x = symbols.get(i).copied().unwrap_or(0);
        kind.digits(x).get(d).copied().unwrap_or(0)
    })
}

#[derive(Clone, Copy)]
pub struct Told {
    lengths: Symbols,
    word: Symbols,
    blocks: [Spans; BLOCKS],
}

impl Told {
    pub fn nothing() -> Told {
        Told {
            lengths: Symbols::empty(),
            word: Symbols::empty(),
            blocks: [Spans::none(); BLOCKS],
        }
    }

    // The lengths of the blocks are behind the third byte of a sheet, which says how many there are.
    pub fn set_up(&mut self, sheet: &[u8]) {
        if let [_number, _dimension, count, rest @ ..] = sheet {
            let (lengths, _behind) = split(rest, usize::from(*count));
            self.lengths.append(lengths);
        }
    }

    pub fn load(&mut self, word: &[u8]) {
        self.word = Symbols::empty();
        self.word.append(word);
        self.blocks = [Spans::none(); BLOCKS];
    }

    pub fn row<K: Kind>(&mut self, kind: &K, block: usize, element: u8) {
        if let Some(spans) = self.blocks.get_mut(block.wrapping_sub(1)) {
            let _more = spans.rows.insert(kind, &Row::of_digits(kind, element));
        }
    }

    pub fn column<K: Kind>(&mut self, kind: &K, block: usize, coefficients: &[u8]) {
        let row = Row::from_fn(|i| coefficients.get(i).copied().unwrap_or(0));
        if let Some(spans) = self.blocks.get_mut(block.wrapping_sub(1)) {
            let _more = spans.columns.insert(kind, &row);
        }
    }

    // How many symbols the word has.
    pub fn len(&self) -> usize {
        self.word.len()
    }

    // Whether the parts are a splitting of the word less the codeword, with this many full errors.
    pub fn splits<K: Kind>(&self, kind: &K, parts: &Parts, full: usize) -> bool {
        let errors = weight(kind, self.lengths.as_slice(), parts.full.as_slice());
        self.adds_up(kind, parts) && errors == Some(full) && self.spans(kind, parts)
    }

    fn adds_up<K: Kind>(&self, kind: &K, parts: &Parts) -> bool {
        // Five words are looked at in one place, so it is the places that are gone over.
        (0..self.len()).all(|i| {
            let inner = kind.sum(parts.row.get(i), parts.column.get(i));
            let error = kind.sum(parts.full.get(i), inner);
            kind.sum(parts.codeword.get(i), error) == self.word.get(i)
        })
    }

    // Whether the row part and the column part are of the hints of each block.
    fn spans<K: Kind>(&self, kind: &K, parts: &Parts) -> bool {
        let mut rows = parts.row.as_slice();
        let mut columns = parts.column.as_slice();
        for (n, spans) in self.lengths.as_slice().iter().zip(&self.blocks) {
            let (row_block, other_rows) = split(rows, usize::from(*n));
            let (column_block, other_columns) = split(columns, usize::from(*n));
            if !spans.make_each(kind, row_block) || !spans.make_all(kind, column_block) {
                return false;
            }
            rows = other_rows;
            columns = other_columns;
        }
        rows.is_empty() && columns.is_empty()
    }
}

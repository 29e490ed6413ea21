// The text of a job that is recovered, as numbers.
use std::alloc::Global;

// The codeword, and the parts, each behind its count.
#[derive(Drop)]
pub struct Shown {
    codeword: Vec<u8>,
    full: Vec<u8>,
    row: Vec<u8>,
    column: Vec<u8>,
}

// Numbers with one space between them.
fn numbers(heap: Global, text: &str) -> anyhow::Result<Vec<u8>> {
    text.split(' ')
        .map(|word| Ok(word.parse::<u8>()?))
        .try_collect(heap)
}

// The numbers of a line of this name.
fn named(heap: Global, line: Option<&str>, name: &str) -> anyhow::Result<Option<Vec<u8>>> {
    match line.and_then(|line| line.strip_prefix(name)) {
        Some(rest) => Ok(Some(numbers(heap, rest)?)),
        None => Ok(None),
    }
}

impl Shown {
    // What a text shows in which hints are counted; nothing for any other.
    pub fn read(heap: Global, text: &str) -> anyhow::Result<Option<Shown>> {
        let mut lines = text.lines();
        let codeword = named(heap, lines.next(), "word ")?;
        let _message = lines.next();
        let full = named(heap, lines.next(), "full ")?;
        let row = named(heap, lines.next(), "row ")?;
        let column = named(heap, lines.next(), "column ")?;
        match (codeword, full, row, column, lines.next()) {
            (Some(codeword), Some(full), Some(row), Some(column), None) => {
                let shown = Shown {
                    codeword,
                    full,
                    row,
                    column,
                };
                let [_, rows, columns] = shown.counts();
                Ok(if rows == 0 && columns == 0 {
                    None
                } else {
                    Some(shown)
                })
            }
            _ => Ok(None),
        }
    }

    // Of full errors, of row hints and of column hints.
    pub fn counts(&self) -> [u8; 3] {
        [&self.full, &self.row, &self.column].map(|part| part.first().copied().unwrap_or(0))
    }

    pub fn codeword(&self) -> &[u8] {
        self.codeword.as_slice()
    }

    pub fn full(&self) -> &[u8] {
        behind(&self.full)
    }

    pub fn row(&self) -> &[u8] {
        behind(&self.row)
    }

    pub fn column(&self) -> &[u8] {
        behind(&self.column)
    }
}

// What is behind the count.
fn behind(part: &Vec<u8>) -> &[u8] {
    match part.as_slice() {
        [_count, rest @ ..] => rest,
        [] => &[],
    }
}

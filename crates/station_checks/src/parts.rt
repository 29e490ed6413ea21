// What a station gives of a word: the codeword, and the parts of its difference from the word.
use codes::{ROOM, Symbols};
use fields::Kind;
use station::Station;

#[derive(Clone, Copy)]
pub struct Parts {
    pub codeword: Symbols,
    pub full: Symbols,
    pub row: Symbols,
    pub column: Symbols,
}

// What is read of an item of n symbols; nothing where that is refused.
fn item<K: Kind>(station: &Station<K>, number: usize, n: usize) -> Option<Symbols> {
    let mut symbols = [0; ROOM];
    let out = symbols.get_mut(..n)?;
    station.read(number, out).ok()?;
    Symbols::from_slice(out)
}

impl Parts {
    pub fn read<K: Kind>(station: &Station<K>, n: usize) -> Option<Parts> {
        Some(Parts {
            codeword: item(station, 1, n)?,
            full: item(station, 2, n)?,
            row: item(station, 3, n)?,
            column: item(station, 4, n)?,
        })
    }

    // Item 2, 3 or 4.
    pub fn part(&self, number: usize) -> &[u8] {
        match number {
            2 => self.full.as_slice(),
            3 => self.row.as_slice(),
            _ => self.column.as_slice(),
        }
    }
}

// The full, the row and the column part of a difference. The struct stands alone in its file, since specs name it.
use codes::Symbols;

#[derive(Clone, Copy)]
pub struct Parts {
    pub full: Symbols,
    pub row: Symbols,
    pub column: Symbols,
}

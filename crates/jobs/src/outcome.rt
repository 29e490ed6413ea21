// What a job comes to where it is recovered. The struct stands alone in its file, since specs name it.
use codes::Symbols;
use station::Counts;

#[derive(Clone, Copy)]
pub struct Recovered {
    pub codeword: Symbols,
    pub message: Symbols,
    pub full: Symbols,
    pub row: Symbols,
    pub column: Symbols,
    pub counts: Counts,
}

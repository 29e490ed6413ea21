// The hints of one block. Both sorts stand as rows of eight fixed coefficients in reduced form: row hints by their digits, column hints
// with zeros behind.
use ranks::Form;

#[derive(Clone, Copy, PartialEq, Eq, Debug)]
pub struct BlockHints {
    pub rows: Form,
    pub columns: Form,
}

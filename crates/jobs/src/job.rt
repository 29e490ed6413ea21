// What a job says. Its sections are parts of the bytes that it was read from.
use super::sections::Section;

#[derive(Clone, Copy, PartialEq, Eq, Debug)]
pub struct Job<'a> {
    pub sheet: &'a [u8],
    // of the sheet: the dimension of the code, and the lengths of its blocks
    pub dimension: usize,
    pub lengths: &'a [u8],
    pub word: Section<'a>,
    pub rows: Section<'a>,
    pub columns: Section<'a>,
}

// A section: a part of the caller's bytes, borrowed, with the offset at which it stands. The case says what its bytes are, and specs
// speak of it: one struct for all three would not.
ghost use Rattle.std.specs.Prelude.{◌≡◌};
ghost use Rattle.sheets.specs.Sections.{part_of, offset_of};

#[derive(Clone, Copy, PartialEq, Eq, Debug)]
pub enum Section<'a> {
    Lengths(&'a [u8], usize),
    Parameters(&'a [u8], usize),
    Locators(&'a [u8], usize),
}

impl<'a> Section<'a> {
    pub fn bytes(self) -> &'a [u8]
        ensures { result.now ≡ part_of self.entry }
    {
        match self {
            Self::Lengths(part, _) | Self::Parameters(part, _) | Self::Locators(part, _) => part,
        }
    }

    pub fn offset(self) -> usize
        ensures { result ≡ offset_of self.entry }
    {
        match self {
            Self::Lengths(_, at) | Self::Parameters(_, at) | Self::Locators(_, at) => at,
        }
    }
}

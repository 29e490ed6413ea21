// A section of a job: a part of the caller's bytes, borrowed, with the offset at which it stands.
ghost use Rattle.std.specs.Prelude.{◌≡◌};
ghost use Rattle.jobs.specs.Sections.{part_of, offset_of};

#[derive(Clone, Copy, PartialEq, Eq, Debug)]
pub enum Section<'a> {
    Word(&'a [u8], usize),
    Rows(&'a [u8], usize),
    Columns(&'a [u8], usize),
}

impl<'a> Section<'a> {
    pub fn bytes(self) -> &'a [u8]
        ensures { result.now ≡ part_of self.entry }
    {
        match self {
            Self::Word(part, _) | Self::Rows(part, _) | Self::Columns(part, _) => part,
        }
    }

    pub fn offset(self) -> usize
        ensures { result ≡ offset_of self.entry }
    {
        match self {
            Self::Word(_, at) | Self::Rows(_, at) | Self::Columns(_, at) => at,
        }
    }
}

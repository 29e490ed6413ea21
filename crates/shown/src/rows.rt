// Numbers and points as they are printed: one after the other, a space before each.
ghost use Rattle.std.specs.Prelude.{Some, flat_map};
ghost use Rattle.shown.specs.Rows.{number_text, point_text};

use skew::Point;
use std::fmt;

#[derive(Clone, Copy, PartialEq, Eq, Debug)]
pub struct Row<'a>(pub &'a [u8]);

impl fmt::Display for Row<'_> {
    ghost output = { λ r. Some (flat_map number_text r.0.now) };

    fn fmt<W: fmt::Write>(&self, f: &mut fmt::Formatter<W>) -> fmt::Result {
        for x in self.0 {
            write!(f, " {x}")?;
        }
        Ok(())
    }
}

// Each point as its parameter and its locator.
#[derive(Clone, Copy, PartialEq, Eq, Debug)]
pub struct Places<'a>(pub &'a [Point]);

impl fmt::Display for Places<'_> {
    ghost output = { λ r. Some (flat_map point_text r.0.now) };

    fn fmt<W: fmt::Write>(&self, f: &mut fmt::Formatter<W>) -> fmt::Result {
        for p in self.0 {
            let parameter = p.parameter;
            let locator = p.locator;
            write!(f, " {parameter}:{locator}")?;
        }
        Ok(())
    }
}

// Sheets that are no codes, built by hand from one that is: each refusal at the first and at the last place where it can be.
use crate::bytes::{Altered, shorter};
use crate::drafts::{Draft, moved, norm};
use crate::showing::judged;
use crate::sweeping::sweeps;
use codes::{SheetBytes, byte};
use drills::Plan;
use fields::Kind;
use std::io;

// A good sheet, and where its parameters and its locators begin and end.
#[derive(Clone, Copy)]
struct Base {
    sheet: SheetBytes,
    parameter: usize,
    last_parameter: usize,
    locator: usize,
    last_locator: usize,
}

impl Base {
    fn new<K: Kind>(kind: &K, draft: &Draft) -> Base {
        let l = draft.lengths.len();
        let n = draft.locators.len();
        let parameter = l.saturating_add(4);
        let last_parameter = parameter.saturating_add(l).saturating_sub(1);
        let locator = last_parameter.saturating_add(2);
        Base {
            sheet: draft.sheet(kind.number(), n),
            parameter,
            last_parameter,
            locator,
            last_locator: locator.saturating_add(n).saturating_sub(1),
        }
    }
}

// Blocks of one length, with 1 for each parameter and each locator.
fn ones(blocks: usize, size: u8) -> Draft {
    let mut out = Draft::empty();
    for _i in 0..blocks {
        out.lengths.push(size);
        out.parameters.push(1);
        for _j in 0..size {
            out.locators.push(1);
        }
    }
    out
}

// The kind over which sheets are judged, and where the answers are printed.
#[derive(Clone, Copy)]
struct Judge<'a, K> {
    rt: &'a HostRuntime,
    kind: &'a K,
}

impl<K: Kind> Judge<'_, K> {
    fn all(&self, sheets: &[SheetBytes]) -> io::Result<()> {
        for sheet in sheets {
            judged(self.rt, self.kind, sheet.as_slice())?;
        }
        Ok(())
    }

    // The first number that is no code, or the last byte.
    fn bad(&self) -> u8 {
        u8::try_from(self.kind.size()).unwrap_or(u8::MAX)
    }

    // The refusals of the reader pass.
    fn unread(&self, b: &Base) -> io::Result<()> {
        let good = &b.sheet;
        self.all(&[
            *good,
            shorter(good),
            good.longer(0),
            good.with(0, self.kind.number() ^ 128),
            good.with(1, 0),
            good.with(1, good.get(1).saturating_add(1)),
            SheetBytes::empty(),
        ])
    }

    // Numbers that are no codes, and parameters that are 0.
    fn fives(&self, b: &Base) -> io::Result<()> {
        let bad = self.bad();
        let good = &b.sheet;
        self.all(&[
            good.with(b.parameter, 0),
            good.with(b.last_parameter, 0),
            good.with(b.parameter, bad),
            good.with(b.last_parameter, bad),
            good.with(b.locator, bad),
            good.with(b.last_locator, bad),
            good.with(b.parameter, 255),
            good.with(b.last_locator, 255),
            good.with(b.last_parameter, 0).with(b.locator, bad),
            good.with(b.last_parameter, 1).with(b.last_locator, bad),
            good.with(b.locator, 0).with(b.last_locator, bad),
        ])
    }

    // Parameters that are conjugate.
    fn sixes(&self, b: &Base, c: u8) -> io::Result<()> {
        let good = &b.sheet;
        let second = b.parameter.saturating_add(1);
        let near = moved(self.kind, c, 1);
        let before = good.get(b.last_parameter.saturating_sub(1));
        self.all(&[
            good.with(second, 1),
            good.with(second, near),
            good.with(b.parameter, near),
            good.with(b.last_parameter, 1),
            good.with(b.last_parameter, near),
            good.with(b.last_parameter, moved(self.kind, c, before)),
            good.with(b.parameter, good.get(b.last_parameter)),
            good.with(b.last_parameter, near).with(b.locator, 0),
        ])
    }

    // Locators that depend on others.
    fn sevens(&self, b: &Base, fixed: u8) -> io::Result<()> {
        let good = &b.sheet;
        let second = b.locator.saturating_add(1);
        let before = good.get(b.last_locator.saturating_sub(1));
        let back = self.kind.width().saturating_sub(1);
        let begin = good.get(b.last_locator.saturating_sub(back));
        let sum = self.kind.sum(self.kind.product(fixed, before), begin);
        let multiple = self.kind.product(fixed, good.get(b.locator));
        self.all(&[
            good.with(b.locator, 0),
            good.with(second, 0),
            good.with(second, multiple),
            good.with(b.locator, fixed),
            good.with(b.last_locator, 0),
            good.with(b.last_locator, before),
            good.with(b.last_locator, sum),
            good.with(b.last_locator, 0).with(b.locator, 0),
        ])
    }

    // A block that is longer than elements have digits.
    fn long(&self, c: u8, size: usize) -> io::Result<()> {
        let mut draft = Draft::empty();
        draft.lengths.push(byte(size));
        draft.parameters.push(c);
        let mut locator = c;
        for j in 1..=size {
            if j <= self.kind.width() {
                draft.locators.push(self.kind.basis(j));
            } else {
                locator = self.kind.product(locator, c);
                draft.locators.push(locator);
            }
        }
        self.all(&[draft.sheet(self.kind.number(), 1)])
    }

    // The smallest sheets and the largest one: the first and the last places that any sheet has.
    fn ends(&self, c: u8) -> io::Result<()> {
        let bad = self.bad();
        let number = self.kind.number();
        let least = ones(1, 1).sheet(number, 1);
        let two = ones(2, 1).sheet(number, 2);
        let largest = ones(12, 2).sheet(number, 24);
        self.all(&[
            least,
            least.with(5, 0),
            least.with(5, bad),
            least.with(7, bad),
            least.with(7, 0),
            two,
            two.with(7, moved(self.kind, c, 1)),
            two.with(7, c),
            largest,
            largest.with(27, 0),
            largest.with(27, bad),
            largest.with(52, bad),
        ])
    }
}

pub fn judging<K: Kind>(rt: &HostRuntime, kind: &K, plan: Plan) -> io::Result<()> {
    let draft = Draft::plain(kind, plan);
    let base = Base::new(kind, &draft);
    let judge = Judge { rt, kind };
    judge.unread(&base)?;
    judge.fives(&base)?;
    judge.sixes(&base, plan.generator)?;
    judge.sevens(&base, norm(kind, plan.generator))?;
    judge.long(plan.generator, kind.width().saturating_add(1))?;
    judge.long(plan.generator, 8)?;
    judge.ends(plan.generator)?;
    sweeps(rt, kind, plan.generator)
}

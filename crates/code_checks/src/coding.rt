// What is done with codes, on drawn codes and drawn words.
use crate::desk::Desk;
use crate::drafts::Draft;
use crate::showing::judged;
use crate::words::Words;
use codes::{SheetBytes, Symbols, dual_locators, encode, product_sum, set_up};
use drills::{Plan, Random};
use fields::Kind;
use shown::{found, line};
use std::io;

// The dual of a code as a draft for the mirror: untwisted parameters, and the dual locators.
fn dual<K: Kind>(kind: &K, draft: &Draft, duals: &Symbols) -> Draft {
    let mut out = Draft {
        lengths: draft.lengths,
        parameters: Symbols::empty(),
        locators: *duals,
    };
    for a in draft.parameters.as_slice() {
        out.parameters.push(kind.untwist(*a));
    }
    out
}

// The dual of the dual: a codeword of the first code is one again.
fn returned<K: Kind>(
    rt: &HostRuntime,
    kind: &K,
    sheet: &SheetBytes,
    words: &Words,
) -> io::Result<()> {
    judged(rt, kind, sheet.as_slice())?;
    let Ok(code) = set_up(kind, sheet.as_slice()) else {
        return println!(rt; "no dual of the dual");
    };
    let desk = Desk {
        rt,
        kind,
        code: &code,
    };
    desk.read("again", &words.good)?;
    desk.read("again", &words.near)
}

// A kind and its mirror, and where what is done with codes over them is printed.
#[derive(Clone, Copy)]
struct Mirrored<'a, K, M> {
    rt: &'a HostRuntime,
    kind: &'a K,
    mirror: &'a M,
}

impl<K: Kind, M: Kind> Mirrored<'_, K, M> {
    // The dual over the mirror: a codeword of it, and its product-sums with a codeword and with any word; and then its own dual.
    fn turned(
        &self,
        random: &mut Random,
        draft: &Draft,
        k: usize,
        words: &Words,
    ) -> io::Result<()> {
        let sheet = draft.sheet(self.mirror.number(), k);
        judged(self.rt, self.mirror, sheet.as_slice())?;
        let Ok(code) = set_up(self.mirror, sheet.as_slice()) else {
            return println!(self.rt; "no dual");
        };
        let sent: Symbols = random.drawn(self.mirror, k);
        let other = encode(self.mirror, &code, sent.as_slice());
        line(self.rt, "dual word", other.as_slice())?;
        let good = product_sum(self.kind, words.good.as_slice(), &other);
        let any = product_sum(self.kind, words.any.as_slice(), &other);
        println!(self.rt; "product-sums {good} {any}")?;
        let answer = dual_locators(self.mirror, code.course.as_slice());
        found(self.rt, "duals", answer)?;
        let Some(duals) = answer else {
            return println!(self.rt; "no dual locators");
        };
        let back = dual(self.mirror, draft, &duals);
        let rest = duals.len().saturating_sub(k);
        returned(
            self.rt,
            self.kind,
            &back.sheet(self.kind.number(), rest),
            words,
        )
    }

    fn drill(&self, random: &mut Random, draft: &Draft, k: usize) -> io::Result<()> {
        let sheet = draft.sheet(self.kind.number(), k);
        judged(self.rt, self.kind, sheet.as_slice())?;
        let Ok(code) = set_up(self.kind, sheet.as_slice()) else {
            return println!(self.rt; "no code");
        };
        let desk = Desk {
            rt: self.rt,
            kind: self.kind,
            code: &code,
        };
        let words = desk.messages(random)?;
        desk.weights(random, &words)?;
        let answer = dual_locators(self.kind, code.course.as_slice());
        found(self.rt, "duals", answer)?;
        let Some(duals) = answer else {
            return println!(self.rt; "no dual locators");
        };
        desk.checks(&duals, &words)?;
        let other = dual(self.kind, draft, &duals);
        let rest = duals.len().saturating_sub(k);
        self.turned(random, &other, rest, &words)
    }

    // Codes of dimension 1, of half the length and of the whole.
    fn dimensions(&self, random: &mut Random, draft: &Draft) -> io::Result<()> {
        let n = draft.locators.len();
        for k in [1, (n / 2).max(1), n] {
            self.drill(random, draft, k)?;
        }
        Ok(())
    }
}

// The largest code, and two of drawn lengths.
pub fn coding<K: Kind, M: Kind>(
    rt: &HostRuntime,
    kind: &K,
    mirror: &M,
    plan: Plan,
) -> io::Result<()> {
    let over = Mirrored { rt, kind, mirror };
    let mut random = Random::seeded(kind.number());
    let width = kind.width();
    let full = Draft::drawn(kind, plan, &mut random, |_random| width);
    over.dimensions(&mut random, &full)?;
    for _i in 0..2usize {
        let blocks = random.place(plan.blocks).saturating_add(1);
        let fewer = Plan { blocks, ..plan };
        let size = |random: &mut Random| random.place(width).saturating_add(1);
        let draft = Draft::drawn(kind, fewer, &mut random, size);
        over.dimensions(&mut random, &draft)?;
    }
    Ok(())
}

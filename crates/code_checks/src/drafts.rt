// Codes, as sheets are made of them.
use crate::bytes::Altered;
use codes::{SheetBytes, Symbols, byte};
use drills::{Plan, Random};
use fields::Kind;

#[derive(Clone, Copy)]
pub struct Draft {
    pub lengths: Symbols,
    pub parameters: Symbols,
    pub locators: Symbols,
}

// c twisted × a × (inverse of c).
pub fn moved<K: Kind>(kind: &K, c: u8, a: u8) -> u8 {
    let upper = kind.product(kind.twist(c), a);
    kind.inverse(c).map_or(a, |d| kind.product(upper, d))
}

// The product of x and its twists, as many as there are digits: it is fixed.
pub fn norm<K: Kind>(kind: &K, x: u8) -> u8 {
    let mut out = 1;
    let mut y = x;
    for _i in 0..kind.width() {
        out = kind.product(out, y);
        y = kind.twist(y);
    }
    out
}

impl Draft {
    pub fn empty() -> Draft {
        Draft {
            lengths: Symbols::empty(),
            parameters: Symbols::empty(),
            locators: Symbols::empty(),
        }
    }

    // Blocks as long as they can be, with powers of the generator and the basis.
    pub fn plain<K: Kind>(kind: &K, plan: Plan) -> Draft {
        let mut out = Draft::empty();
        let mut parameter = 1;
        for _i in 0..plan.blocks {
            out.parameters.push(parameter);
            out.lengths.push(byte(kind.width()));
            for j in 1..=kind.width() {
                out.locators.push(kind.basis(j));
            }
            parameter = kind.product(parameter, plan.generator);
        }
        out
    }

    // Blocks as long as `size` says, with drawn conjugates of these powers, and drawn locators: each a multiple of a basis element by
    // one symbol of the block, plus the locator before it.
    pub fn drawn<K: Kind, F: Fn(&mut Random) -> usize>(
        kind: &K,
        plan: Plan,
        random: &mut Random,
        size: F,
    ) -> Draft
        requires { F.IsAlwaysCallable size }
    {
        let mut out = Draft::empty();
        let mut power = 1;
        for _i in 0..plan.blocks {
            let by = random.unit(kind);
            out.parameters.push(moved(kind, by, power));
            power = kind.product(power, plan.generator);
            let length = size(random);
            out.lengths.push(byte(length));
            let by = random.unit(kind);
            let mut locator = 0;
            for j in 1..=length {
                let term = kind.product(by, kind.basis(j));
                locator = kind.sum(term, locator);
                out.locators.push(locator);
            }
        }
        out
    }

    pub fn sheet(&self, number: u8, k: usize) -> SheetBytes {
        let mut out = SheetBytes::empty();
        out.append(&[number, byte(k)]);
        out.section(self.lengths.as_slice());
        out.section(self.parameters.as_slice());
        out.section(self.locators.as_slice());
        out
    }
}

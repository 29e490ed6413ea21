// Every kind and its mirror, with a plan for codes over them.
ghost use Rattle.std.specs.Prelude.{◌≡◌, ◌*◌, ◌≤◌};

use crate::plan::Plan;
use brought::Gf256Over16;
use fields::{Gf16, Gf81, Gf256, Kind, Mirror, Mod13};
use std::io;

// What is done with a kind and its mirror, by a type of each program, since a closure is of one kind alone: blocks of the plan that are as long as they can be fit in a code.
pub trait Visit: Drop {
    fn visit<K: Kind, M: Kind>(&self, kind: &K, mirror: &M, plan: Plan) -> io::Result<()>
        requires { (K.meaning kind.now).width * plan.blocks ≤ 24 };
}

fn plan(generator: u8, blocks: usize) -> Plan
    ensures { result.blocks ≡ blocks }
{
    Plan { generator, blocks }
}

// A kind, and then its mirror, of which it is the mirror.
fn both<V: Visit, K: Kind + Copy>(visitor: &V, kind: K, plan: Plan) -> io::Result<()>
    requires { (K.meaning kind).width * plan.blocks ≤ 24 }
{
    let mirror = Mirror { inner: kind };
    visitor.visit(&kind, &mirror, plan)?;
    visitor.visit(&mirror, &kind, plan)
}

// Every kind and its mirror, the shipped ones and the brought one.
pub fn each_kind<V: Visit>(visitor: &V) -> io::Result<()> {
    both(visitor, Gf256, plan(2, 3))?;
    both(visitor, Gf16, plan(2, 3))?;
    both(visitor, Gf81, plan(3, 2))?;
    both(visitor, Mod13, plan(2, 12))?;
    both(visitor, Gf256Over16, plan(2, 12))
}

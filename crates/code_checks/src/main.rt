// Codes over every kind and its mirror: sheets that are refused, and on codes from a fixed generator of numbers encoding, messages,
// weights, duals and syndromes. What it prints is held to what an unrelated computation printed (reference/codes.py).
#![tactic(auto)]

use coding::coding;
use drills::{Plan, Visit, each_kind};
use fields::Kind;
use figures::figures;
use judging::judging;
use std::io;

mod bytes;
mod coding;
mod desk;
mod drafts;
mod figures;
mod judging;
mod showing;
mod sweeping;
mod words;

// Where the codes over a kind are reported.
#[derive(Drop)]
struct Reporter<'a> {
    rt: &'a HostRuntime,
}

impl Visit for Reporter<'_> {
    fn visit<K: Kind, M: Kind>(&self, kind: &K, mirror: &M, plan: Plan) -> io::Result<()> {
        println!(self.rt; "kind {}", kind.number())?;
        judging(self.rt, kind, plan)?;
        coding(self.rt, kind, mirror, plan)
    }
}

fn main(rt: HostRuntime) -> io::Result<()> {
    each_kind(&Reporter { rt: &rt })?;
    figures(&rt)
}

// Reads lists of calls from the input and prints what a station answers to each. A line `station` with a number begins a bare station of the
// kind of that number; every other line is a call on it, as reference/station.py spells them. Then a million words fill a tally. It is held to
// what an unrelated computation printed (reference/station.py).
#![tactic(auto)]

ghost use Rattle.std.specs.Prelude.{⊤};

use cases::{Work, with_kind};
use fields::Kind;
use lines::Line;
use million::million;
use session::Session;
use std::io;

mod lines;
mod million;
mod parts;
mod printing;
mod session;
mod tests;
mod told;

// The calls on one station, one to a line.
#[derive(Drop)]
struct List<'a> {
    rt: &'a HostRuntime,
    calls: &'a str,
}

impl Work for List<'_> {
    type Out = anyhow::Result<()>;

    ghost gives = { λ _ _ _. ⊤ };

    fn run<K: Kind + Copy>(self, kind: &K) -> anyhow::Result<()> {
        let mut session = Session::new(*kind);
        for text in self.calls.lines() {
            let line = Line::read(self.rt.alloc(), text)?;
            session.answer(self.rt, line.call()?)?;
        }
        Ok(())
    }
}

// A list, from the number of the kind on.
fn follow(rt: &HostRuntime, list: &str) -> anyhow::Result<()> {
    let Some((number, calls)) = list.split_once('\n') else {
        return Ok(());
    };
    println!(rt; "station {number}")?;
    match with_kind(number.parse::<u8>()?, List { rt, calls }) {
        Some(done) => done,
        None => Ok(println!(rt; "no kind")?),
    }
}

fn main(rt: HostRuntime) -> anyhow::Result<()> {
    let text = io::read_to_string(rt.alloc(), rt.stdin())?;
    for list in text.as_str().split("station ") {
        follow(&rt, list)?;
    }
    million(&rt)
}

// Reads jobs from the input, one to a line, their bytes in decimal, and prints the text that each comes to. The parts of a difference are
// not determined by hints: where a text counts hints, its counts are printed, and whether the parts that it gives are a splitting. It is held to
// what an unrelated computation printed (reference/jobs.py).
#![tactic(auto)]

ghost use Rattle.std.specs.Prelude.{⊤};

use cases::{Work, with_kind};
use drills::numbers;
use fields::Kind;
use jobs::{answer, read_job};
use parts::Told;
use std::io;
use std::io::{BufRead, BufReader};
use texts::Shown;

mod parts;
mod texts;

// Whether what is shown splits, by what the job says.
#[derive(Drop)]
struct Judge<'a> {
    job: &'a [u8],
    shown: &'a Shown,
}

impl Work for Judge<'_> {
    type Out = bool;

    ghost gives = { λ _ _ _. ⊤ };

    fn run<K: Kind + Copy>(self, kind: &K) -> bool {
        match read_job(kind.number(), self.job) {
            Ok(job) => Told::new(kind, &job).splits(kind, self.shown),
            Err(_) => false,
        }
    }
}

fn report(rt: &HostRuntime, job: &[u8]) -> anyhow::Result<()> {
    let answered = answer(job);
    let text = std::str::from_utf8(answered.as_slice())?;
    let Some(shown) = Shown::read(rt.alloc(), text)? else {
        return Ok(print!(rt; "{text}")?);
    };
    for line in text.lines().take(2) {
        println!(rt; "{line}")?;
    }
    let number = job.first().copied().unwrap_or(0);
    let judge = Judge { job, shown: &shown };
    let verdict = match with_kind(number, judge) {
        Some(true) => "splits",
        _ => "does not split",
    };
    let [full, row, column] = shown.counts();
    Ok(println!(rt; "full {full} row {row} column {column} {verdict}")?)
}

fn main(rt: HostRuntime) -> anyhow::Result<()> {
    let heap = rt.alloc();
    for line in BufReader::new(heap, rt.stdin())?.lines(heap) {
        let line = line?;
        let job = numbers(heap, line.as_str())?;
        report(&rt, job.as_slice())?;
    }
    Ok(())
}

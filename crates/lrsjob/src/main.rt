// Reads a job from the standard input, at most 1,024 bytes of it, and prints its text.
#![tactic(auto)]

ghost use Rattle.std.specs.Prelude.{ℕ, List, take, OnOk, IfSome};
ghost use Rattle.std.specs.Io.KnownBytes.{Appends};
ghost use Rattle.jobs.specs.Answers.{Answers};

use jobs::{ROOM, answer};
use std::alloc::Global;
use std::io;
use std::io::{Read, Write};

// Reads a job to its end, at most 1,024 bytes of it, and writes its text.
fn serve<R: Read + Drop, W: Write>(alloc: Global, input: R, output: &mut W) -> io::Result<()>
    ensures { OnOk result (IfSome (R.remaining input) (λ xs. (text : List ℕ) × Answers (take 1024 xs) text × Appends (W.contents output.old) (W.contents output.new) text)) }
{
    let mut job = Vec::new(alloc);
    input.take(ROOM as u64).read_to_end(&mut job)?;
    let text = answer(job.as_slice());
    output.write_all(text.as_slice())
}

fn main(rt: HostRuntime) -> io::Result<()> {
    serve(rt.alloc(), rt.stdin(), &mut rt.stdout())
}

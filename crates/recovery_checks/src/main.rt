// Reads cases from the input, one to a line, all numbers in decimal: the length of a sheet, the sheet, the symbols of a word, the row
// hints after their number, each a block and an element, and the column hints after theirs, each a block, a length and as many
// coefficients. Prints the verdict on each hint, and what is recovered. Then every word of the two small codes is recovered. It is held to
// what an unrelated computation printed (reference/recovery.py).
#![tactic(auto)]

ghost use Rattle.std.specs.Prelude.{⊤};

use answers::{answer, verdict};
use cases::{HintReader, Work, split, with_kind};
use codes::set_up;
use drills::numbers;
use fields::{Gf16, Kind, Mod13};
use hints::Hints;
use shown::{SECOND_SHEET, SHEET};
use small::every_word;
use std::io;
use std::io::{BufRead, BufReader};

mod answers;
mod small;

// A case: its sheet, and the bytes of its word and its hints.
#[derive(Drop)]
struct Case<'a> {
    rt: &'a HostRuntime,
    sheet: &'a [u8],
    bytes: &'a [u8],
}

// `timing` takes sheet and hints alike, but prints no verdict, and goes on to many words.
impl Work for Case<'_> {
    type Out = io::Result<()>;

    ghost gives = { λ _ _ _. ⊤ };

    fn run<K: Kind + Copy>(self, kind: &K) -> io::Result<()> {
        let Ok(code) = set_up(kind, self.sheet) else {
            return println!(self.rt; "no code");
        };
        let (word, rest) = split(self.bytes, code.course.len());
        let mut hints = Hints::none();
        for hint in HintReader::new(rest) {
            let sort = hint.sort();
            let v = hint.add_to(kind, &code, &mut hints);
            verdict(self.rt, sort, v)?;
        }
        answer(self.rt, kind, &code, &hints, word)
    }
}

// The case over the kind that its sheet asks for.
fn solve(case: Case<'_>) -> io::Result<()> {
    let rt = case.rt;
    let [number, ..] = case.sheet else {
        return println!(rt; "no sheet");
    };
    match with_kind(*number, case) {
        Some(done) => done,
        None => println!(rt; "no kind"),
    }
}

fn main(rt: HostRuntime) -> anyhow::Result<()> {
    let heap = rt.alloc();
    for line in BufReader::new(heap, rt.stdin())?.lines(heap) {
        let line = line?;
        let all = numbers(heap, line.as_str())?;
        if let [size, rest @ ..] = all.as_slice() {
            let (sheet, bytes) = split(rest, usize::from(*size));
            solve(Case {
                rt: &rt,
                sheet,
                bytes,
            })?;
        }
    }
    every_word(&rt, &Mod13, &SHEET)?;
    every_word(&rt, &Gf16, &SECOND_SHEET)?;
    Ok(())
}

// The two codes that all documents use, and every word of theirs.
use crate::bytes::{Altered, sheet_of};
use crate::showing::judged;
use codes::{Code, Symbols, dual_locators, encode, set_up, syndromes};
use drills::each_word;
use fields::{Gf16, Kind, Mod13};
use ranks::weight;
use shown::{MESSAGE, SECOND_SHEET, SHEET, found, line};
use std::io;

// How many words have no syndrome other than 0, and the least weight of these without the word 0.
#[derive(Clone, Copy, PartialEq, Eq, Debug)]
struct Tally {
    count: usize,
    least: usize,
}

impl Tally {
    // One word of four symbols.
    fn take<K: Kind>(&mut self, kind: &K, code: &Code, duals: &Symbols, word: &[u8]) {
        let points = code.course.as_slice();
        let found = syndromes(kind, points, duals.as_slice(), code.dimension, word);
        if found.is_some_and(|s| s.as_slice().iter().all(|x| *x == 0)) {
            self.count = self.count.saturating_add(1);
            if let Some(w) = weight(kind, code.lengths.as_slice(), word)
                && w > 0
            {
                self.least = self.least.min(w);
            }
        }
    }
}

// Every word of a code with four symbols, over less than 256 elements.
fn tallied<K: Kind>(rt: &impl Print, kind: &K, code: &Code, duals: &Symbols) -> io::Result<()> {
    let mut tally = Tally {
        count: 0,
        least: code.course.len(),
    };
    each_word(kind, |word| tally.take(kind, code, duals, &word));
    println!(rt; "codewords {} weigh {}", tally.count, tally.least)
}

fn figure<K: Kind>(
    rt: &impl Print,
    kind: &K,
    sheet: &[u8],
    sent: &[u8],
    word: &[u8],
) -> io::Result<()> {
    judged(rt, kind, sheet)?;
    let Ok(code) = set_up(kind, sheet) else {
        return println!(rt; "no code");
    };
    line(rt, "word", encode(kind, &code, sent).as_slice())?;
    found(rt, "weight", weight(kind, code.lengths.as_slice(), word))?;
    let points = code.course.as_slice();
    let answer = dual_locators(kind, points);
    found(rt, "duals", answer)?;
    let Some(duals) = answer else {
        return println!(rt; "no dual locators");
    };
    let s = syndromes(kind, points, duals.as_slice(), code.dimension, word);
    found(rt, "syndromes", s)?;
    tallied(rt, kind, &code, &duals)
}

pub fn figures(rt: &impl Print) -> io::Result<()> {
    println!(rt; "figures")?;
    figure(rt, &Mod13, &SHEET, &MESSAGE, &[8, 12, 1, 4])?;
    figure(rt, &Gf16, &SECOND_SHEET, &[1, 1], &[8, 5, 0, 0])?;
    let second = sheet_of(&SECOND_SHEET);
    judged(rt, &Gf16, second.with(7, 8).as_slice())?;
    judged(rt, &Gf16, second.with(10, 6).as_slice())
}

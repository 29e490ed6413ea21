// What is tried with one code: messages, weights and syndromes.
use crate::bytes::shorter;
use crate::drafts::norm;
use crate::words::{Words, spoiled};
use codes::{Code, Course, Symbols, dual_locators, encode, message, syndromes};
use drills::Random;
use fields::Kind;
use ranks::{rank, weight};
use shown::{found, line};
use std::io;

// A code over a kind, and where its answers are printed.
#[derive(Clone, Copy)]
pub struct Desk<'a, K> {
    pub rt: &'a HostRuntime,
    pub kind: &'a K,
    pub code: &'a Code,
}

impl<K: Kind> Desk<'_, K> {
    pub fn read(&self, name: &str, word: &Symbols) -> io::Result<()> {
        found(
            self.rt,
            name,
            message(self.kind, self.code, word.as_slice()),
        )
    }

    pub fn messages(&self, random: &mut Random) -> io::Result<Words> {
        let n = self.code.course.len();
        let sent: Symbols = random.drawn(self.kind, self.code.dimension);
        line(self.rt, "sent", sent.as_slice())?;
        let good = encode(self.kind, self.code, sent.as_slice());
        line(self.rt, "word", good.as_slice())?;
        self.read("message", &good)?;
        let place = random.place(n);
        let near = spoiled(self.kind, &good, place, random.unit(self.kind));
        self.read("near", &near)?;
        let any: Symbols = random.drawn(self.kind, n);
        self.read("any", &any)?;
        self.read("short", &shorter(&good))?;
        let long = encode(self.kind, self.code, any.as_slice());
        line(self.rt, "long", long.as_slice())?;
        self.read("message", &long)?;
        Ok(Words { good, near, any })
    }

    fn weigh(&self, name: &str, word: &Symbols) -> io::Result<()> {
        let lengths = self.code.lengths.as_slice();
        found(self.rt, name, weight(self.kind, lengths, word.as_slice()))
    }

    // Weights of a codeword, of any word, of one with two symbols, of one with rank at most 1 in each block, of nothing but 0, and
    // of one symbol too few.
    pub fn weights(&self, random: &mut Random, words: &Words) -> io::Result<()> {
        let n = self.code.course.len();
        let zero = Symbols::empty().resized(n);
        let place = random.place(n);
        let sparse = spoiled(self.kind, &zero, place, random.unit(self.kind));
        let place = random.place(n);
        let sparse = spoiled(self.kind, &sparse, place, random.unit(self.kind));
        let by = random.unit(self.kind);
        let mut narrow = Symbols::empty();
        for x in random.symbols(self.kind).take(n) {
            narrow.push(self.kind.product(by, norm(self.kind, x)));
        }
        self.weigh("weight", &words.good)?;
        self.weigh("weight", &words.any)?;
        self.weigh("sparse", &sparse)?;
        self.weigh("narrow", &narrow)?;
        self.weigh("zero", &zero)?;
        self.weigh("short", &shorter(&words.any))?;
        let all = rank(self.kind, words.any.as_slice());
        println!(self.rt; "ranks {all} {}", rank(self.kind, narrow.as_slice()))
    }

    fn checked(&self, duals: &Symbols, k: usize, word: &Symbols) -> io::Result<()> {
        let points = self.code.course.as_slice();
        let s = syndromes(self.kind, points, duals.as_slice(), k, word.as_slice());
        found(self.rt, "syndromes", s)
    }

    // Syndromes of the words; nothing where a row or k has not its length.
    pub fn checks(&self, duals: &Symbols, words: &Words) -> io::Result<()> {
        let k = self.code.dimension;
        self.checked(duals, k, &words.good)?;
        self.checked(duals, k, &words.near)?;
        self.checked(duals, k, &words.any)?;
        self.checked(duals, k, &shorter(&words.good))?;
        self.checked(&shorter(duals), k, &words.good)?;
        let over = self.code.course.len().saturating_add(1);
        self.checked(duals, over, &words.good)?;
        let none = dual_locators(self.kind, Course::empty().as_slice());
        found(self.rt, "no duals", none)
    }
}

// Every word of a code of four symbols.
use codes::{Code, set_up};
use drills::{Checksum, each_word};
use fields::Kind;
use hints::Hints;
use recovery::recover;
use std::io;

// How many words there are of each sort, and a check sum over what is recovered.
#[derive(Clone, Copy, PartialEq, Eq, Debug)]
struct Tally {
    clean: u32,
    single: u32,
    none: u32,
    check: Checksum,
}

impl Tally {
    fn word<K: Kind>(&mut self, kind: &K, code: &Code, word: &[u8]) {
        let Some(r) = recover(kind, code, &Hints::none(), word) else {
            self.check.take(255);
            self.none = self.none.wrapping_add(1);
            return;
        };
        for x in r.codeword.as_slice() {
            self.check.take(*x);
        }
        self.check.take(u8::try_from(r.errors).unwrap_or(u8::MAX));
        if r.errors == 0 {
            self.clean = self.clean.wrapping_add(1);
        } else {
            self.single = self.single.wrapping_add(1);
        }
    }
}

pub fn every_word<K: Kind>(rt: &impl Print, kind: &K, sheet: &[u8]) -> io::Result<()> {
    let Ok(code) = set_up(kind, sheet) else {
        return println!(rt; "no code");
    };
    let mut tally = Tally {
        clean: 0,
        single: 0,
        none: 0,
        check: Checksum::new(),
    };
    each_word(kind, |word| tally.word(kind, &code, &word));
    println!(rt;
        "every word: tF 0 {} tF 1 {} none {} check {}",
        tally.clean,
        tally.single,
        tally.none,
        tally.check.value()
    )
}

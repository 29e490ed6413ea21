// What C calls to time recovery: many words of one code, under the same hints.
#![tactic(auto)]

ghost use Rattle.std.specs.Prelude.{⊤};

use cases::{HintReader, Work, split, with_kind};
use codes::{Code, set_up};
use fields::Kind;
use hints::Hints;
use recovery::{Prepared, prepare, recover_by};

// Writes the symbols at the front, as far as there is room. One by one: copy_from_slice, a call for a few bytes, costs one word in twenty.
fn put(room: &mut [u8], symbols: &[u8]) {
    for (cell, x) in room.iter_mut().zip(symbols) {
        *cell = *x;
    }
}

// Recovers each word that is there whole and has room in `out`, and answers how many were recovered.
fn recover_all<K: Kind>(
    kind: &K,
    code: &Code,
    prepared: &Prepared,
    hints: &Hints,
    words: &[u8],
    out: &mut [u8],
) -> usize {
    let n = code.course.len();
    let mut count = 0usize;
    for (word, room) in words.chunks_exact(n).zip(out.chunks_exact_mut(n)) {
        match recover_by(kind, code, prepared, hints, word) {
            Some(r) => {
                put(room, r.codeword.as_slice());
                count = count.saturating_add(1);
            }
            None => room.fill(0),
        }
    }
    count
}

// The words of one code, the bytes of its sheet and of the hints, and where the codewords go.
#[derive(Drop)]
struct Run<'a, 'o> {
    sheet: &'a [u8],
    hints: &'a [u8],
    words: &'a [u8],
    out: &'o mut [u8],
}

impl Work for Run<'_, '_> {
    type Out = usize;

    ghost gives = { λ _ _ _. ⊤ };

    fn run<K: Kind + Copy>(self, kind: &K) -> usize {
        let Ok(code) = set_up(kind, self.sheet) else {
            return 0;
        };
        let Some(prepared) = prepare(kind, &code) else {
            return 0;
        };
        let mut hints = Hints::none();
        for hint in HintReader::new(self.hints) {
            let _verdict = hint.add_to(kind, &code, &mut hints);
        }
        recover_all(kind, &code, &prepared, &hints, self.words, self.out)
    }
}

// The setting is the length of a sheet, the sheet, the number of row hints, each a block and an element, and the number of column
// hints, each a block, a length and as many coefficients. The first byte of the sheet names the kind: a shipped one, its mirror, or
// the brought one. Each word of as many symbols as the code has is recovered in turn, and its codeword stands at the same place of
// `out`, or zeros; words without room there are left out. Answers how many were recovered.
#[unsafe(no_mangle)]
pub extern "C" fn lrs_time_recover(setting: &[u8], words: &[u8], out: &mut [u8]) -> usize {
    let [size, bytes @ ..] = setting else {
        return 0;
    };
    let (sheet, hints) = split(bytes, usize::from(*size));
    let [number, ..] = sheet else {
        return 0;
    };
    // with_kind also knows the mirror of the brought kind, which is none of those that are timed
    if *number == 72 {
        return 0;
    }
    let work = Run {
        sheet,
        hints,
        words,
        out,
    };
    with_kind(*number, work).unwrap_or(0)
}

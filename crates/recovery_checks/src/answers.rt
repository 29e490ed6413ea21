// What is printed of one case.
use codes::Code;
use fields::Kind;
use hints::{Hints, NotTaken};
use ranks::weight;
use recovery::{Recovery, prepare, recover, recover_by};
use shown::Row;
use std::io;

pub fn verdict(rt: &impl Print, sort: &str, taken: Result<(), NotTaken>) -> io::Result<()> {
    match taken {
        Ok(()) => print!(rt; "{sort} taken; "),
        Err(reason) => print!(rt; "{sort} {reason}; "),
    }
}

// Whether the parts add up to the word less the codeword, and the full part weighs what is said.
fn adds_up<K: Kind>(kind: &K, code: &Code, word: &[u8], r: &Recovery) -> bool {
    // Five lists are looked at in one place, so it is the places that are gone over.
    let parts = &r.parts;
    let adds = (0..word.len()).all(|i| {
        let inner = kind.sum(parts.row.get(i), parts.column.get(i));
        let error = kind.sum(parts.full.get(i), inner);
        kind.sum(r.codeword.get(i), error) == kind.sum(word[i], 0)
    });
    adds && weight(kind, code.lengths.as_slice(), parts.full.as_slice()) == Some(r.errors)
}

// Whether what is prepared for the code leads to the same codeword and number of full errors, or to nothing both times.
fn agrees<K: Kind>(kind: &K, code: &Code, hints: &Hints, word: &[u8], r: Option<Recovery>) -> bool {
    let Some(prepared) = prepare(kind, code) else {
        return false;
    };
    match (recover_by(kind, code, &prepared, hints, word), r) {
        (Some(a), Some(b)) => {
            a.errors == b.errors && a.codeword.as_slice() == b.codeword.as_slice()
        }
        (None, None) => true,
        _ => false,
    }
}

pub fn answer<K: Kind>(
    rt: &impl Print,
    kind: &K,
    code: &Code,
    hints: &Hints,
    word: &[u8],
) -> io::Result<()> {
    let found = recover(kind, code, hints, word);
    if !agrees(kind, code, hints, word, found) {
        print!(rt; "the prepared way differs: ")?;
    }
    let Some(r) = found else {
        return println!(rt; "none");
    };
    if !adds_up(kind, code, word, &r) {
        print!(rt; "parts do not add up: ")?;
    }
    let codeword = Row(r.codeword.as_slice());
    let message = Row(r.message.as_slice());
    print!(rt; "recovered{codeword} message{message} full {}", r.errors)?;
    if hints.rows == 0 && hints.columns == 0 {
        print!(rt; "; part{}", Row(r.parts.full.as_slice()))?;
    }
    println!(rt; "")
}

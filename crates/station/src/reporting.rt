// What is reported of a code, and the items of what was recovered.
ghost use Rattle.std.specs.Prelude.{◌≡◌, ◌<◌, ◌≤◌, length, MatchOption, IfOk};
ghost use Rattle.sheets.specs.Sheets.{Text};
ghost use Rattle.codes.specs.Codes.{LawfulCode};
ghost use Rattle.codes.specs.Holdings.{held as numbers, stops};
ghost use Rattle.codes.specs.Writing.{written, Described};
ghost use Rattle.station.specs.Calls.{wrote, weighs, encode, message, syndromes, dual, weight};
ghost use Rattle.station.specs.Positions.{item_of};
ghost use Rattle.station.specs.Rules.{Syndromes};
ghost use Rattle.station.specs.Standings.{CodeReports, replied};

use crate::judging::{all_codes, exact_input, exact_output};
use crate::writing::answer;
use codes::{Code, SheetBytes, Symbols, dual_locators, dual_sheet};
use fields::Kind;
use recovery::Recovery;
use sheets::{Fault, Layer, Reason};

// The codeword of a message.
pub fn encoded<K: Kind>(
    kind: &K,
    code: &Code,
    message: &[u8],
    room: usize,
) -> Result<SheetBytes, Fault>
    ensures told { CodeReports (K.meaning kind.now) code.now (encode message.now room) (replied (λ s. wrote (written s)) result) }
    ensures sized { IfOk result (λ s. length (written s) ≡ room) }
{
    exact_input(message, code.dimension)?;
    exact_output(room, code.course.len())?;
    all_codes(kind, message)?;
    let word = codes::encode(kind, code, message);
    Ok(answer(word.as_slice()))
}

// The one message of a codeword.
pub fn read_back<K: Kind>(
    kind: &K,
    code: &Code,
    word: &[u8],
    room: usize,
) -> Result<SheetBytes, Fault>
    ensures told { CodeReports (K.meaning kind.now) code.now (message word.now room) (replied (λ s. wrote (written s)) result) }
    ensures sized { IfOk result (λ s. length (written s) ≡ room) }
{
    exact_input(word, code.course.len())?;
    exact_output(room, code.dimension)?;
    all_codes(kind, word)?;
    let Some(f) = codes::message(kind, code, word) else {
        return Err(Layer::Station.fault(Reason::NoCodeword, 0));
    };
    Ok(answer(f.as_slice()))
}

// The syndromes of a word by the dual locators of the code: a lawful code has some.
fn syndromes_of<K: Kind>(kind: &K, code: &Code, word: &[u8]) -> Option<Symbols>
    ensures { let m = K.meaning kind.now in let c = code.now in
        (LawfulCode m c → length word.now ≡ length (stops c.course) → MatchOption result ⊥ (λ s. Syndromes m c word.now (numbers s))) }
{
    let points = code.course.as_slice();
    let duals = dual_locators(kind, points)?;
    codes::syndromes(kind, points, duals.as_slice(), code.dimension, word)
}

// The syndromes of a word.
pub fn checked<K: Kind>(
    kind: &K,
    code: &Code,
    word: &[u8],
    room: usize,
) -> Result<SheetBytes, Fault>
    ensures told { CodeReports (K.meaning kind.now) code.now (syndromes word.now room) (replied (λ s. wrote (written s)) result) }
    ensures sized { let m = K.meaning kind.now in (LawfulCode m code.now → IfOk result (λ s. length (written s) ≡ room)) }
{
    exact_input(word, code.course.len())?;
    exact_output(room, code.course.len() - code.dimension)?;
    all_codes(kind, word)?;
    let Some(s) = syndromes_of(kind, code, word) else {
        return Err(Layer::Station.fault(Reason::NoDual, 0));
    };
    Ok(answer(s.as_slice()))
}

// The sheet of the dual code.
pub fn turned<K: Kind>(kind: &K, code: &Code, room: usize) -> Result<SheetBytes, Fault>
    ensures told { CodeReports (K.meaning kind.now) code.now (dual room) (replied (λ s. wrote (written s)) result) }
    ensures sized { let m = K.meaning kind.now in (LawfulCode m code.now → ((t : Text) × Described code.now t) → IfOk result (λ s. length (written s) ≡ room)) }
{
    if code.dimension == code.course.len() {
        return Err(Layer::Station.fault(Reason::NoDual, 0));
    }
    exact_output(room, 5 + 2 * code.lengths.len() + code.course.len())?;
    let Some(sheet) = dual_sheet(kind, code) else {
        return Err(Layer::Station.fault(Reason::NoDual, 0));
    };
    Ok(sheet)
}

// The weight of a word.
pub fn weighed<K: Kind>(kind: &K, code: &Code, word: &[u8]) -> Result<usize, Fault>
    ensures { CodeReports (K.meaning kind.now) code.now (weight word.now) (replied weighs result) }
{
    exact_input(word, code.course.len())?;
    all_codes(kind, word)?;
    let lengths = code.lengths.as_slice();
    ranks::weight(kind, lengths, word).ok_or(Layer::Station.fault(Reason::WrongLength, 0))
}

// An item of what was recovered.
pub fn part(recovery: &Recovery, item: usize) -> Option<&[u8]>
    ensures { MatchOption result (4 < item) (λ s. (item ≤ 4) × (s.now ≡ item_of recovery.now item)) }
{
    match item {
        0 => Some(recovery.message.as_slice()),
        1 => Some(recovery.codeword.as_slice()),
        2 => Some(recovery.parts.full.as_slice()),
        3 => Some(recovery.parts.row.as_slice()),
        4 => Some(recovery.parts.column.as_slice()),
        _ => None,
    }
}

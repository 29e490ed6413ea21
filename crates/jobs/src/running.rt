// A job is run: its calls are put to a station of its own, and the first refusal ends it.
ghost use Rattle.std.specs.Prelude.{◌≡◌, ◌+◌, ◌-◌, ◌<◌, ◌≤◌, ◌^◌, ℕ, List, ◌∷◌, [], ◌++◌, length, slice_index, MatchResult};
ghost use Rattle.fields.specs.Elements.{Elem};
ghost use Rattle.codes.specs.declared.shape.Code.{Code as Shape};
ghost use Rattle.codes.specs.Holdings.{held};
ghost use Rattle.hints.specs.Splittings.{Given};
ghost use Rattle.recovery.specs.declared.outcome.Recovery.{Recovery as Outcome};
ghost use Rattle.station.specs.Calls.{Command, load};
ghost use Rattle.station.specs.Positions.{size_of, item_size};
ghost use Rattle.jobs.specs.Jobs.{row_bytes, column_bytes};
ghost use Rattle.jobs.specs.Sections.{part_of, offset_of};
ghost use Rattle.jobs.specs.Runs.{Comes, moved, row_calls, column_calls};
ghost use Rattle.jobs.specs.Texts.{found_of, outcome_of};
ghost use Rattle.jobs.specs.Leading.{Led, WordStops, RowStops, ColumnStops, OnBlocks, Solved, Hands, Shows};

use crate::outcome::Recovered;
use crate::reading::read_job;
use crate::sections::Section;
use codes::Symbols;
use fields::Kind;
use sheets::Fault;
use station::{Counts, Station};

// The refusal at another place.
fn at_place(fault: Fault, place: usize) -> Fault
    ensures { result ≡ moved fault place }
{
    Fault {
        reason: fault.reason,
        layer: fault.layer,
        place,
    }
}

// The word is loaded; a symbol that is refused stands behind the offset of the section.
fn load<K: Kind>(station: &mut Station<K>, word: Section<'_>) -> Result<(), Fault>
    ensures kind { station.new.kind ≡ station.old.kind }
    ensures led { let m = K.meaning station.old.kind in let w = part_of word.entry in let at = offset_of word.entry in
        ((cs : List Command) → at + length w < 2 ^ 64 → Led m cs station.old → MatchResult result (λ _. Led m (cs ++ load w ∷ []) station.new) (λ e. WordStops m cs w at e)) }
{
    let symbols = word.bytes();
    match station.load(symbols) {
        Ok(()) => Ok(()),
        Err(fault) => Err(at_place(fault, word.offset().saturating_add(fault.place))),
    }
}

// The row hints, in order; one that is refused is refused at its first byte.
fn give_rows<K: Kind>(station: &mut Station<K>, rows: Section<'_>) -> Result<(), Fault>
    requires { offset_of rows + length (part_of rows) < 2 ^ 64 }
    ensures kind { station.new.kind ≡ station.old.kind }
    ensures led { let m = K.meaning station.old.kind in let at = offset_of rows.entry in
        ((cs : List Command) (rs : List (ℕ × ℕ)) → part_of rows.entry ≡ row_bytes rs → Led m cs station.old
        → MatchResult result (λ _. Led m (cs ++ row_calls rs) station.new) (λ e. RowStops m cs rs at e)) }
{
    let offset = rows.offset();
    let bytes = rows.bytes();
    for i in 0..bytes.len() / 2 {
        let block = usize::from(bytes[2 * i]);
        let element = bytes[2 * i + 1];
        match station.row(block, element) {
            Ok(()) => {}
            Err(fault) => return Err(at_place(fault, offset + 2 * i)),
        }
    }
    Ok(())
}

// The length of a block, of those that there are.
fn block_length(lengths: &[u8], block: usize) -> usize
    ensures { 1 ≤ block → block ≤ length lengths.now → result ≡ slice_index lengths.now (block - 1) }
{
    if block < 1 || block > lengths.len() {
        return 0;
    }
    usize::from(lengths[block - 1])
}

// The column hints, in order, each as long as its block; one that is refused is refused at its first byte.
fn give_columns<K: Kind>(
    station: &mut Station<K>,
    lengths: &[u8],
    columns: Section<'_>,
) -> Result<(), Fault>
    requires { offset_of columns + length (part_of columns) < 2 ^ 64 }
    ensures kind { station.new.kind ≡ station.old.kind }
    ensures led { let m = K.meaning station.old.kind in let at = offset_of columns.entry in
        ((cs : List Command) (hs : List (ℕ × List ℕ)) → part_of columns.entry ≡ column_bytes hs → OnBlocks lengths.now hs → Led m cs station.old
        → MatchResult result (λ _. Led m (cs ++ column_calls hs) station.new) (λ e. ColumnStops m cs hs at e)) }
{
    let offset = columns.offset();
    let bytes = columns.bytes();
    let mut at = 0;
    while at < bytes.len() {
        let block = usize::from(bytes[at]);
        let size = block_length(lengths, block).min(bytes.len() - at - 1);
        let end = at + 1 + size;
        let coefficients = &bytes[at + 1..end];
        match station.column(block, coefficients) {
            Ok(()) => {}
            Err(fault) => return Err(at_place(fault, offset + at)),
        }
        at = end;
    }
    Ok(())
}

// An item of so many symbols, at most 24, and the counts.
fn item<K: Kind>(
    station: &Station<K>,
    number: usize,
    size: usize,
) -> Result<(Symbols, Counts), Fault>
    ensures { let m = K.meaning station.now.kind in
        ((c : Shape) (gs : List (Given (Elem m))) (r : Outcome) → Solved m c gs r station.now → number ≤ 4 → size ≡ item_size c number
        → MatchResult result (λ x. Hands m gs r number (held x.0) x.1) (λ _. ⊥)) }
{
    let mut symbols = [0; 24];
    let out = &mut symbols[..size.min(24)];
    let counts = station.read(number, out)?;
    let mut found = Symbols::empty();
    found.append(out);
    Ok((found, counts))
}

// What was recovered of a word of n symbols, by a code of dimension k.
fn found<K: Kind>(station: &Station<K>, n: usize, k: usize) -> Result<Recovered, Fault>
    ensures { let m = K.meaning station.now.kind in
        ((c : Shape) (gs : List (Given (Elem m))) (r : Outcome) → Solved m c gs r station.now → n ≡ size_of c → k ≡ c.dimension
        → MatchResult result (λ f. Shows m gs r (found_of f)) (λ _. ⊥)) }
{
    let (message, counts) = item(station, 0, k)?;
    let (codeword, _) = item(station, 1, n)?;
    let (full, _) = item(station, 2, n)?;
    let (row, _) = item(station, 3, n)?;
    let (column, _) = item(station, 4, n)?;
    Ok(Recovered {
        codeword,
        message,
        full,
        row,
        column,
        counts,
    })
}

// What a job comes to.
pub fn run<K: Kind + Drop>(kind: K, bytes: &[u8]) -> Result<Recovered, Fault>
    ensures { Comes (K.meaning kind) bytes.now (outcome_of result) }
{
    let job = read_job(kind.number(), bytes)?;
    let mut station = Station::new(kind);
    station.set_up(job.sheet)?;
    load(&mut station, job.word)?;
    give_rows(&mut station, job.rows)?;
    give_columns(&mut station, job.lengths, job.columns)?;
    match station.decode() {
        Ok(()) => found(&station, job.word.bytes().len(), job.dimension),
        Err(fault) => Err(at_place(fault, bytes.len())),
    }
}

// The reader of jobs. Counts, lengths and blocks are judged when they are read, from the front; what they count is judged in the run.
ghost use Rattle.std.specs.Prelude.{◌≡◌, ◌≤◌, List, [], ◌∷◌, length, MatchResult};
ghost use Rattle.sheets.specs.declared.faults.Reason.TheVariants.{MissingByte};
ghost use Rattle.jobs.specs.Jobs.{at_job, Refused};
ghost use Rattle.jobs.specs.Readings.{Read, Unambiguous};
ghost use Rattle.jobs.specs.Steps.{
  Stand,
  Judged,
  PartRead,
  WordRead,
  RowsRead,
  ColumnsRead,
  StopsByte,
  StopsCount,
  StopsBlock,
  StopsPart,
  StopsWord,
  StopsRows,
  StopsColumns,
};

use crate::job::Job;
use crate::sections::Section;
use sheets::{Fault, Layer, Reason, read_front};

// More hints of one sort are refused.
const MOST_HINTS: usize = 24;

// The next byte is missing.
fn missing(bytes: &[u8]) -> Fault
    ensures { result ≡ at_job MissingByte (length bytes.now) }
{
    Layer::Job.fault(Reason::MissingByte, bytes.len())
}

// The byte at a place.
#[tactic(auto, using(crate::proofs::Steps::byte_missing))]
fn read_byte(bytes: &[u8], at: usize) -> Result<usize, Fault>
    requires { at ≤ length bytes.now }
    ensures { MatchResult result (λ x. Stand bytes.now at (x ∷ [])) (λ e. StopsByte bytes.now at e) }
{
    Ok(usize::from(*bytes.get(at).ok_or(missing(bytes))?))
}

// The count at a place, from `low` to `high`.
#[tactic(auto, using(crate::proofs::Steps::no_count, crate::proofs::Steps::count_breaks))]
fn read_count(bytes: &[u8], at: usize, low: usize, high: usize) -> Result<usize, Fault>
    requires { at ≤ length bytes.now }
    ensures { MatchResult result (λ x. Judged bytes.now at low high x) (λ e. StopsCount bytes.now at low high e) }
{
    let count = read_byte(bytes, at)?;
    if count < low || count > high {
        return Err(Layer::Job.fault(Reason::Limit, at));
    }
    Ok(count)
}

// The number of a block at a place, from 1.
#[tactic(auto, using(crate::proofs::Steps::no_block, crate::proofs::Steps::block_breaks))]
fn read_block(bytes: &[u8], at: usize, blocks: usize) -> Result<usize, Fault>
    requires { at ≤ length bytes.now }
    ensures { MatchResult result (λ b. Judged bytes.now at 1 blocks b) (λ e. StopsBlock bytes.now at blocks e) }
{
    let block = read_byte(bytes, at)?;
    if block < 1 || block > blocks {
        return Err(Layer::Job.fault(Reason::OutOfRange, at));
    }
    Ok(block)
}

// As many bytes from a place on.
#[tactic(auto, using(crate::proofs::Steps::part_stands))]
fn read_part(bytes: &[u8], at: usize, count: usize) -> Result<&[u8], Fault>
    requires { at ≤ length bytes.now }
    ensures { MatchResult result (λ s. PartRead bytes.now at count s.now) (λ e. StopsPart bytes.now at count e) }
{
    if bytes.len() - at < count {
        return Err(missing(bytes));
    }
    Ok(&bytes[at..at + count])
}

// The symbols behind their count, which is n.
#[tactic(auto, using(crate::proofs::Words::no_symbol_count))]
fn read_word(bytes: &[u8], at: usize, n: usize) -> Result<&[u8], Fault>
    requires { at ≤ length bytes.now }
    ensures { MatchResult result (λ s. WordRead bytes.now at n s.now) (λ e. StopsWord bytes.now at n e) }
{
    let _count = read_count(bytes, at, n, n)?;
    read_part(bytes, at + 1, n)
}

// The row hints behind their count, each a block and an element.
#[tactic(auto, using(crate::proofs::Rows::no_row_count, crate::proofs::Rows::rows_more))]
fn read_rows(bytes: &[u8], at: usize, blocks: usize) -> Result<&[u8], Fault>
    requires { at ≤ length bytes.now }
    ensures { MatchResult result (λ s. RowsRead bytes.now at blocks s.now) (λ e. StopsRows bytes.now at blocks e) }
{
    let count = read_count(bytes, at, 0, MOST_HINTS)?;
    let mut end = at + 1;
    for _ in 0..count {
        let _block = read_block(bytes, end, blocks)?;
        let _element = read_byte(bytes, end + 1)?;
        end += 2;
    }
    Ok(&bytes[at + 1..end])
}

// The column hints behind their count, each a block and as many coefficients as the block has symbols.
#[tactic(auto, using(crate::proofs::Columns::columns_more))]
fn read_columns<'a>(bytes: &'a [u8], at: usize, lengths: &[u8]) -> Result<&'a [u8], Fault>
    requires { at ≤ length bytes.now }
    ensures { MatchResult result (λ s. ColumnsRead bytes.now at lengths.now s.now) (λ e. StopsColumns bytes.now at lengths.now e) }
{
    let count = read_count(bytes, at, 0, MOST_HINTS)?;
    let mut end = at + 1;
    for _ in 0..count {
        let block = read_block(bytes, end, lengths.len())?;
        let size = usize::from(lengths[block - 1]);
        let coefficients = read_part(bytes, end + 1, size)?;
        end += 1 + coefficients.len();
    }
    Ok(&bytes[at + 1..end])
}

// The job that the bytes are, and nothing more. The places are those of the counts of its sections.
#[tactic(auto, using(crate::specs::Jobs::no_sheet, crate::proofs::Spelling::word_stops))]
pub fn read_job(number: u8, bytes: &[u8]) -> Result<Job<'_>, Fault>
    ensures { MatchResult result (λ j. Read number bytes.now j) (λ e. Refused number bytes.now e) }
{
    let (sheet, word_at) = read_front(number, bytes)?;
    let lengths = sheet.lengths.bytes();
    let n = sheet.locators.bytes().len();
    let word = read_word(bytes, word_at, n)?;
    let rows_at = word_at + 1 + word.len();
    let rows = read_rows(bytes, rows_at, lengths.len())?;
    let columns_at = rows_at + 1 + rows.len();
    let columns = read_columns(bytes, columns_at, lengths)?;
    let end = columns_at + 1 + columns.len();
    if end < bytes.len() {
        return Err(Layer::Job.fault(Reason::ExtraBytes, end));
    }
    Ok(Job {
        sheet: &bytes[..word_at],
        dimension: usize::from(sheet.dimension),
        lengths,
        word: Section::Word(word, word_at + 1),
        rows: Section::Rows(rows, rows_at + 1),
        columns: Section::Columns(columns, columns_at + 1),
    })
}

// No byte string is both a job and refused, and each has one answer: a theorem, which this contract asks for.
pub fn jobs_stand() -> u8
    ensures { Unambiguous }
{
    0
}

// Hints, judged one after the other as they arrive.
ghost use Rattle.std.specs.Prelude.{◌≡◌, ℕ, ◌+◌, ◌-◌, ◌≤◌, List, length, replicate, MatchOption, MatchResult, IfErr, OnOk, OnErr};
ghost use Rattle.fields.specs.Meaning.{Meaning};
ghost use Rattle.fields.specs.Elements.{Elem, ops};
ghost use Rattle.ranks.specs.Ranks.{total, Tells};
ghost use Rattle.ranks.specs.Reduction.{row as row_of, InForm, Extended, AmongRows, rows_of, Row as FixedRow};
ghost use Rattle.codes.specs.Holdings.{held, stops};
ghost use Rattle.codes.specs.Fitness.{First, AllNot};
ghost use Rattle.hints.specs.Splittings.{Given};
ghost use Rattle.hints.specs.Holdings.{no_hints, Holds};
ghost use Rattle.hints.specs.declared.not_taken.NotTaken.TheVariants.{NoBlock, Dependent};
ghost use Rattle.hints.specs.Taking.{There, Unfixed, RowJudged, ColumnJudged, with_row, with_column};

use super::block::BlockHints;
use super::holder::Hints;
use super::not_taken::NotTaken;
use super::splitting::padded_row;
use codes::Code;
use fields::Kind;
use ranks::{Form, Row};

// The first coefficient that is no code, or not fixed.
fn first_unfixed<K: Kind>(kind: &K, coefficients: &[u8]) -> Option<usize>
    ensures { let m = K.meaning kind.now in let h = coefficients.now in
        MatchOption result (AllNot (Unfixed m) h) (λ i. First (Unfixed m) h i) }
{
    coefficients.iter().position(|c| {
        let twisted = kind.twist(*c);
        (*c as u16) >= kind.size() || twisted != *c
    })
}

// The place of a block among the blocks of a code, which count from 1.
fn place_of(code: &Code, block: usize) -> Result<usize, NotTaken>
    ensures { let ns = held code.now.lengths in
        MatchResult result (λ i. There ns block × (i ≡ block - 1)) (λ e. (e ≡ NoBlock) × (¬ There ns block)) }
{
    if block == 0 || block > code.lengths.len() {
        return Err(NotTaken::NoBlock);
    }
    Ok(block - 1)
}

// The form with one row more, which is no sum of its rows with fixed coefficients.
fn extended<K: Kind>(kind: &K, form: &Form, row: &Row) -> Result<Form, NotTaken>
    ensures refused { IfErr result (λ e. e ≡ Dependent) }
    ensures extends { let m = K.meaning kind.now in let f = form.now in let h = row_of m row.now in
        (InForm m f → FixedRow (ops m) 8 h → MatchResult result (λ g. Extended m f h g) (λ _. AmongRows (ops m) 8 (rows_of m f) h)) }
{
    let mut more = *form;
    let fresh = more.insert(kind, row);
    if fresh {
        Ok(more)
    } else {
        Err(NotTaken::Dependent)
    }
}

impl Hints {
    // No hints, for any code.
    pub fn none() -> Hints
        ensures { (m : Meaning) (ns : List ℕ) (k : ℕ) → length ns ≤ 12 → k ≤ total ns → Holds m ns k result (replicate (length ns) (no_hints m)) }
    {
        let form = Form::empty();
        let block = BlockHints {
            rows: form,
            columns: form,
        };
        Hints {
            blocks: [block; 12],
            rows: 0,
            columns: 0,
        }
    }

    // Whether there are n - k hints already.
    fn spent(&self, code: &Code) -> bool
        ensures { Tells result (length (stops code.now.course) ≤ code.now.dimension + (self.now.rows + self.now.columns)) }
    {
        code.dimension + (self.rows + self.columns) >= code.course.len()
    }

    // The two functions end alike, but write two fields of a block and two counts; a function of both would be told which.

    // Takes a row hint for a block, counted from 1: an element said to be in the column space of the error there. What is not
    // taken alters nothing.
    pub fn add_row<K: Kind>(
        &mut self,
        kind: &K,
        code: &Code,
        block: usize,
        element: u8,
    ) -> Result<(), NotTaken>
        ensures kept { OnErr result (self.new ≡ self.old) }
        ensures judged { let m = K.meaning kind.now in let ns = held code.now.lengths in let k = code.now.dimension in
            ((gs : List (Given (Elem m))) → Holds m ns k self.old gs
            → RowJudged m ns k gs block element result × OnOk result (Holds m ns k self.new (with_row m gs block element))) }
    {
        let at = place_of(code, block)?;
        if (element as u16) >= kind.size() {
            return Err(NotTaken::NoCode(0));
        }
        let row = Row::of_digits(kind, element);
        let mut entry = self.blocks[at];
        entry.rows = extended(kind, &entry.rows, &row)?;
        if self.spent(code) {
            return Err(NotTaken::Spent);
        }
        self.blocks[at] = entry;
        self.rows += 1;
        Ok(())
    }

    // Takes a column hint for a block, counted from 1: a row of fixed coefficients, as many as the block has symbols, said to be
    // in the row space of the error there. What is not taken alters nothing.
    pub fn add_column<K: Kind>(
        &mut self,
        kind: &K,
        code: &Code,
        block: usize,
        coefficients: &[u8],
    ) -> Result<(), NotTaken>
        ensures kept { OnErr result (self.new ≡ self.old) }
        ensures judged { let m = K.meaning kind.now in let ns = held code.now.lengths in let k = code.now.dimension in
            let h = coefficients.now in
            ((gs : List (Given (Elem m))) → Holds m ns k self.old gs
            → ColumnJudged m ns k gs block h result × OnOk result (Holds m ns k self.new (with_column m gs block h))) }
    {
        let at = place_of(code, block)?;
        if coefficients.len() != code.lengths.get(at) as usize {
            return Err(NotTaken::WrongLength);
        }
        if let Some(i) = first_unfixed(kind, coefficients) {
            return Err(NotTaken::NoCode(i));
        }
        let row = padded_row(coefficients);
        let mut entry = self.blocks[at];
        entry.columns = extended(kind, &entry.columns, &row)?;
        if self.spent(code) {
            return Err(NotTaken::Spent);
        }
        self.blocks[at] = entry;
        self.columns += 1;
        Ok(())
    }
}

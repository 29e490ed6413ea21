// A word is taken, with hints, and recovered.
ghost use Rattle.std.specs.Prelude.{◌≡◌, List, length, OnErr, MatchOption};
ghost use Rattle.fields.specs.Elements.{Elem, elems};
ghost use Rattle.codes.specs.Holdings.{held as numbers, stops};
ghost use Rattle.hints.specs.Splittings.{Given};
ghost use Rattle.hints.specs.Holdings.{Holds};
ghost use Rattle.recovery.specs.Reach.{InReach, Recovered};
ghost use Rattle.station.specs.Calls.{done, load, row, column, decode};
ghost use Rattle.station.specs.Standings.{SoundPlan, Goes, replied, fault_of};

use super::Station;
use super::opening::open;
use crate::calls::Call;
use crate::judging::{all_codes, exact_input, not_open};
use crate::plan::Plan;
use crate::state::State;
use crate::tally::{MOST_WORDS, Tally};
use codes::Symbols;
use fields::Kind;
use hints::{Hints, NotTaken};
use recovery::{Recovery, recover, recover_by};
use sheets::{Fault, Layer, Reason};

// With what a hint that is not taken is refused.
fn refusal(reason: NotTaken) -> Fault
    ensures { result ≡ fault_of reason }
{
    let layer = Layer::Station;
    match reason {
        NotTaken::NoBlock => layer.fault(Reason::OutOfRange, 0),
        NotTaken::WrongLength => layer.fault(Reason::WrongLength, 0),
        NotTaken::NoCode(place) => layer.fault(Reason::NoSymbol, place),
        NotTaken::Dependent => layer.fault(Reason::DependentHint, 0),
        NotTaken::Spent => layer.fault(Reason::Spent, 0),
    }
}

// What a word is recovered to, by what was prepared for the code where something was.
fn recovered<K: Kind>(kind: &K, plan: &Plan, hints: &Hints, word: &[u8]) -> Option<Recovery>
    ensures { let m = K.meaning kind.now in let c = plan.now.code in let w = elems m word.now in
        (SoundPlan m plan.now → length word.now ≡ length (stops c.course) → (gs : List (Given (Elem m))) → Holds m (numbers c.lengths) c.dimension hints.now gs
        → MatchOption result ((v : List (Elem m)) → ¬ InReach m c gs w v) (λ x. Recovered m c gs w x)) }
{
    match &plan.prepared {
        Some(prepared) => recover_by(kind, &plan.code, prepared, hints, word),
        None => recover(kind, &plan.code, hints, word),
    }
}

impl<K: Kind> Station<K> {
    // Takes a word, without hints.
    pub fn load(&mut self, word: &[u8]) -> Result<(), Fault>
        ensures kind { self.new.kind ≡ self.old.kind }
        ensures kept { OnErr result (self.new ≡ self.old) }
        ensures rules { Goes (K.meaning self.old.kind) self.old (load word.now) (replied (λ _. done) result) self.new }
    {
        open(&self.state, Call::Load(word))?;
        let State::Ready(plan) = self.state else {
            return Err(not_open());
        };
        exact_input(word, plan.code.course.len())?;
        all_codes(&self.kind, word)?;
        let mut symbols = Symbols::empty();
        symbols.append(word);
        self.state = State::Held {
            plan,
            word: symbols,
            hints: Hints::none(),
        };
        Ok(())
    }

    // Takes a row hint: an element said to be in the error's column space in a block, counted from 1.
    pub fn row(&mut self, block: usize, element: u8) -> Result<(), Fault>
        ensures kind { self.new.kind ≡ self.old.kind }
        ensures kept { OnErr result (self.new ≡ self.old) }
        ensures rules { Goes (K.meaning self.old.kind) self.old (row block element) (replied (λ _. done) result) self.new }
    {
        open(&self.state, Call::Row { block, element })?;
        let State::Held {
            plan,
            word,
            mut hints,
        } = self.state
        else {
            return Err(not_open());
        };
        match hints.add_row(&self.kind, &plan.code, block, element) {
            Ok(()) => self.state = State::Held { plan, word, hints },
            Err(e) => return Err(refusal(e)),
        }
        Ok(())
    }

    // Takes a column hint: a row of coefficients said to be in the error's row space in a block, counted from 1.
    pub fn column(&mut self, block: usize, coefficients: &[u8]) -> Result<(), Fault>
        ensures kind { self.new.kind ≡ self.old.kind }
        ensures kept { OnErr result (self.new ≡ self.old) }
        ensures rules { Goes (K.meaning self.old.kind) self.old (column block coefficients.now) (replied (λ _. done) result) self.new }
    {
        open(
            &self.state,
            Call::Column {
                block,
                coefficients,
            },
        )?;
        let State::Held {
            plan,
            word,
            mut hints,
        } = self.state
        else {
            return Err(not_open());
        };
        match hints.add_column(&self.kind, &plan.code, block, coefficients) {
            Ok(()) => self.state = State::Held { plan, word, hints },
            Err(e) => return Err(refusal(e)),
        }
        Ok(())
    }

    // Finds the codeword in reach of the word under its hints.
    pub fn decode(&mut self) -> Result<(), Fault>
        ensures kind { self.new.kind ≡ self.old.kind }
        ensures kept { OnErr result (self.new ≡ self.old) }
        ensures rules { Goes (K.meaning self.old.kind) self.old decode (replied (λ _. done) result) self.new }
    {
        open(&self.state, Call::Decode)?;
        let State::Held { plan, word, hints } = self.state else {
            return Err(not_open());
        };
        if self.tally.words >= MOST_WORDS {
            return Err(Layer::Station.fault(Reason::FullTally, 0));
        }
        let Some(recovery) = recovered(&self.kind, &plan, &hints, word.as_slice()) else {
            return Err(Layer::Station.fault(Reason::OutOfReach, 0));
        };
        self.tally = Tally {
            words: self.tally.words + 1,
            errors: self.tally.errors + recovery.errors,
        };
        self.state = State::Solved {
            plan,
            recovery,
            row: hints.rows,
            column: hints.columns,
        };
        Ok(())
    }
}

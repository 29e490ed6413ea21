// A station is made bare, and set up and cleared.
ghost use Rattle.std.specs.Prelude.{◌≡◌, [], OnErr};
ghost use Rattle.station.specs.Calls.{done, set_up, clear};
ghost use Rattle.station.specs.Histories.{start};
ghost use Rattle.station.specs.Standings.{position_of, Sound, Goes, replied};

use super::Station;
use super::opening::open;
use crate::calls::Call;
use crate::judging::not_open;
use crate::plan::Plan;
use crate::state::State;
use crate::tally::Tally;
use fields::Kind;
use recovery::prepare;
use sheets::Fault;

impl<K: Kind> Station<K> {
    // A bare station for this kind.
    pub fn new(kind: K) -> Station<K>
        ensures kind { result.kind ≡ kind }
        ensures bare { let m = K.meaning kind in Sound m result.state [] × (position_of m result [] ≡ start m) }
    {
        Station {
            kind,
            state: State::Bare,
            tally: Tally {
                words: 0,
                errors: 0,
            },
        }
    }

    // Takes the code of a sheet.
    pub fn set_up(&mut self, sheet: &[u8]) -> Result<(), Fault>
        ensures kind { self.new.kind ≡ self.old.kind }
        ensures kept { OnErr result (self.new ≡ self.old) }
        ensures rules { Goes (K.meaning self.old.kind) self.old (set_up sheet.now) (replied (λ _. done) result) self.new }
    {
        open(&self.state, Call::SetUp(sheet))?;
        let code = codes::set_up(&self.kind, sheet)?;
        let prepared = prepare(&self.kind, &code);
        self.state = State::Ready(Plan { code, prepared });
        Ok(())
    }

    // Drops the word, its hints and what was recovered.
    pub fn clear(&mut self) -> Result<(), Fault>
        ensures kind { self.new.kind ≡ self.old.kind }
        ensures kept { OnErr result (self.new ≡ self.old) }
        ensures rules { Goes (K.meaning self.old.kind) self.old clear (replied (λ _. done) result) self.new }
    {
        open(&self.state, Call::Clear)?;
        match self.state {
            State::Held { plan, .. } => self.state = State::Ready(plan),
            State::Solved { plan, .. } => self.state = State::Ready(plan),
            _ => return Err(not_open()),
        }
        Ok(())
    }
}

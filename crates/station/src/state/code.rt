// The code of a state.
ghost use Rattle.std.specs.Prelude.{◌≡◌, MatchOption};
ghost use Rattle.station.specs.Calls.{bare};
ghost use Rattle.station.specs.Standings.{stage_of, HasCode};

use super::State;
use codes::Code;

impl State {
    // What reporting calls report of.
    pub fn code(&self) -> Option<&Code>
        ensures { MatchOption result (stage_of self.now ≡ bare) (λ c. HasCode self.now c.now) }
    {
        match self {
            State::Bare => None,
            State::Ready(plan) => Some(&plan.code),
            State::Held { plan, .. } => Some(&plan.code),
            State::Solved { plan, .. } => Some(&plan.code),
        }
    }
}

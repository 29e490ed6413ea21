// Which calls are open in which state.
ghost use Rattle.std.specs.Prelude.{◌≡◌, true, false, MatchResult};
ghost use Rattle.station.specs.Calls.{opens, at_station};
ghost use Rattle.station.specs.Standings.{stage_of, command_of};
ghost use Rattle.sheets.specs.declared.faults.Reason.TheVariants.{NotOpen};

use crate::calls::Call;
use crate::judging::not_open;
use crate::state::State;
use sheets::Fault;

// State and call, matched together.
fn is_open(state: &State, call: Call<'_>) -> bool
    ensures { result ≡ opens (stage_of state.now) (command_of call.entry) }
{
    match (state, call) {
        (State::Bare, Call::SetUp(_)) => true,
        (State::Bare, _) => false,
        (State::Ready(_), Call::Load(_)) => true,
        (State::Held { .. }, Call::Row { .. }) => true,
        (State::Held { .. }, Call::Column { .. }) => true,
        (State::Held { .. }, Call::Decode) => true,
        (State::Held { .. }, Call::Clear) => true,
        (State::Solved { .. }, Call::Read { .. }) => true,
        (State::Solved { .. }, Call::Clear) => true,
        (_, Call::Encode { .. }) => true,
        (_, Call::Message { .. }) => true,
        (_, Call::Syndromes { .. }) => true,
        (_, Call::Dual { .. }) => true,
        (_, Call::Weight(_)) => true,
        (_, Call::Tally) => true,
        _ => false,
    }
}

// What is refused first: a call that is not open.
pub fn open(state: &State, call: Call<'_>) -> Result<(), Fault>
    ensures { let o = opens (stage_of state.now) (command_of call.entry) in MatchResult result (λ _. o ≡ true) (λ e. (o ≡ false) × (e ≡ at_station NotOpen 0)) }
{
    if is_open(state, call) {
        Ok(())
    } else {
        Err(not_open())
    }
}

// A list of calls, put to a station of its own.
ghost use Rattle.std.specs.Prelude.{◌≡◌, IfOk};
ghost use Rattle.station.specs.Promises.{Promises};
ghost use Rattle.station.specs.Standings.{Replayed};

use crate::answers::Answer;
use crate::calls::Call;
use crate::station::Station;
use fields::Kind;
use sheets::Fault;
use std::alloc::{AllocError, Global};

// Puts the calls to a bare station, one after the other: the station, and every answer. Want of memory for the answers is the only error.
pub fn replay<K: Kind + Drop>(
    alloc: Global,
    kind: K,
    calls: &[Call<'_>],
) -> Result<(Station<K>, Vec<Result<Answer, Fault>>), AllocError>
    ensures kind { IfOk result (λ x. x.0.kind ≡ kind) }
    ensures history { IfOk result (λ x. Replayed (K.meaning kind) calls.now x.1.items x.0) }
    ensures promises { Promises (K.meaning kind) }
{
    let mut station = Station::new(kind);
    let mut answers = Vec::new(alloc);
    for call in calls {
        let answer = station.put(*call);
        answers.push(answer)?;
    }
    Ok((station, answers))
}

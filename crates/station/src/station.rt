// A station for one kind of field. The struct stands alone in its file, whose ghost lines name nothing that names the struct.
use super::state::State;
use super::tally::Tally;
use fields::Kind;

mod making;
mod opening;
mod putting;
mod reports;
mod words;

#[derive(Drop)]
pub struct Station<K: Kind> {
    kind: K,
    state: State,
    tally: Tally,
}

// The states of a station.
use super::plan::Plan;
use codes::Symbols;
use hints::Hints;
use recovery::Recovery;

mod code;

#[derive(Clone, Copy)]
pub enum State {
    Bare,
    Ready(Plan),
    Held {
        plan: Plan,
        word: Symbols,
        hints: Hints,
    },
    Solved {
        plan: Plan,
        recovery: Recovery,
        // how many row and column hints there were
        row: usize,
        column: usize,
    },
}

// A code with what was prepared for its words; where nothing was, they are recovered without.
use codes::Code;
use recovery::Prepared;

#[derive(Clone, Copy)]
pub struct Plan {
    pub code: Code,
    pub prepared: Option<Prepared>,
}

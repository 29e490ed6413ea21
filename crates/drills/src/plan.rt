// How codes of a kind are made.

// Powers of the generator are not conjugate, as far as there are blocks.
#[derive(Clone, Copy, PartialEq, Eq, Debug)]
pub struct Plan {
    pub generator: u8,
    pub blocks: usize,
}

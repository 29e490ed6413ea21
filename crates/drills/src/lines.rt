// Cases as the programs read them: numbers in decimal.
use std::alloc::Global;

// The numbers of a line.
pub fn numbers(heap: Global, line: &str) -> anyhow::Result<Vec<u8>> {
    line.split_whitespace()
        .map(|word| Ok(word.parse::<u8>()?))
        .try_collect(heap)
}

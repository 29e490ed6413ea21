// The lines of the input.
use anyhow::Context;
use station::Call;
use std::alloc::Global;

// The name of a call and its numbers; those that are symbols stand as bytes too.
#[derive(Drop)]
pub struct Line<'a> {
    name: &'a str,
    numbers: Vec<usize>,
    symbols: Vec<u8>,
}

fn numbers(heap: Global, rest: &str) -> anyhow::Result<Vec<usize>> {
    rest.split_whitespace()
        .map(|word| Ok(word.parse::<usize>()?))
        .try_collect(heap)
}

// What is behind a block, an item and the length of a buffer.
fn symbols(heap: Global, name: &str, numbers: &[usize]) -> anyhow::Result<Vec<u8>> {
    let behind = match name {
        "read" => 2,
        "row" | "column" | "encode" | "message" | "syndromes" | "dual" => 1,
        _ => 0,
    };
    numbers
        .iter()
        .skip(behind)
        .map(|x| Ok(u8::try_from(*x)?))
        .try_collect(heap)
}

impl<'a> Line<'a> {
    pub fn read(heap: Global, text: &'a str) -> anyhow::Result<Line<'a>> {
        let (name, rest) = text.split_once(' ').unwrap_or((text, ""));
        let numbers = numbers(heap, rest)?;
        let symbols = symbols(heap, name, numbers.as_slice())?;
        Ok(Line {
            name,
            numbers,
            symbols,
        })
    }

    // The call that is spelt.
    pub fn call(&self) -> anyhow::Result<Call<'_>> {
        self.step().or(self.report()).context("no such call")
    }

    // One that alters the station.
    fn step(&self) -> Option<Call<'_>> {
        let symbols = self.symbols.as_slice();
        match (self.name, self.numbers.as_slice()) {
            ("set_up", _) => Some(Call::SetUp(symbols)),
            ("load", _) => Some(Call::Load(symbols)),
            ("row", &[block, _]) => Some(Call::Row {
                block,
                element: *symbols.first()?,
            }),
            ("column", &[block, ..]) => Some(Call::Column {
                block,
                coefficients: symbols,
            }),
            ("decode", []) => Some(Call::Decode),
            ("clear", []) => Some(Call::Clear),
            _ => None,
        }
    }

    // One that does not.
    fn report(&self) -> Option<Call<'_>> {
        let symbols = self.symbols.as_slice();
        match (self.name, self.numbers.as_slice()) {
            ("encode", &[room, ..]) => Some(Call::Encode {
                message: symbols,
                room,
            }),
            ("message", &[room, ..]) => Some(Call::Message {
                word: symbols,
                room,
            }),
            ("syndromes", &[room, ..]) => Some(Call::Syndromes {
                word: symbols,
                room,
            }),
            ("dual", &[room]) => Some(Call::Dual { room }),
            ("weight", _) => Some(Call::Weight(symbols)),
            ("tally", []) => Some(Call::Tally),
            ("read", &[item, room]) => Some(Call::Read { item, room }),
            _ => None,
        }
    }
}

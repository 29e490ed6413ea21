// What a station is asked. Blocks count from 1; a call that writes is told how much room the buffer has.
#[derive(Clone, Copy, PartialEq, Eq, Debug)]
pub enum Call<'a> {
    SetUp(&'a [u8]),
    Load(&'a [u8]),
    Row {
        block: usize,
        element: u8,
    },
    Column {
        block: usize,
        coefficients: &'a [u8],
    },
    Decode,
    Clear,
    Encode {
        message: &'a [u8],
        room: usize,
    },
    Message {
        word: &'a [u8],
        room: usize,
    },
    Syndromes {
        word: &'a [u8],
        room: usize,
    },
    Dual {
        room: usize,
    },
    Weight(&'a [u8]),
    Tally,
    Read {
        item: usize,
        room: usize,
    },
}

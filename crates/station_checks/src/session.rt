// A station as it is called by the lines of the input.
use crate::parts::Parts;
use crate::printing::{buffer, done, refused};
use crate::told::Told;
use fields::Kind;
use sheets::Fault;
use shown::Row;
use station::{Call, Counts, Station};
use std::io;

#[derive(Drop)]
pub struct Session<K: Kind + Copy> {
    kind: K,
    station: Station<K>,
    told: Told,
}

impl<K: Kind + Copy> Session<K> {
    pub fn new(kind: K) -> Session<K> {
        Session {
            kind,
            station: Station::new(kind),
            told: Told::nothing(),
        }
    }

    pub fn set_up(&mut self, sheet: &[u8]) -> Result<(), Fault> {
        self.station.set_up(sheet)?;
        self.told.set_up(sheet);
        Ok(())
    }

    pub fn load(&mut self, word: &[u8]) -> Result<(), Fault> {
        self.station.load(word)?;
        self.told.load(word);
        Ok(())
    }

    fn row(&mut self, block: usize, element: u8) -> Result<(), Fault> {
        self.station.row(block, element)?;
        self.told.row(&self.kind, block, element);
        Ok(())
    }

    fn column(&mut self, block: usize, coefficients: &[u8]) -> Result<(), Fault> {
        self.station.column(block, coefficients)?;
        self.told.column(&self.kind, block, coefficients);
        Ok(())
    }

    pub fn decode(&mut self) -> Result<(), Fault> {
        self.station.decode()
    }

    pub fn clear(&mut self) -> Result<(), Fault> {
        self.station.clear()
    }

    // Makes a call, and prints what the station answers.
    pub fn answer(&mut self, rt: &(impl Print + AllocGlobal), call: Call<'_>) -> io::Result<()> {
        match call {
            Call::SetUp(sheet) => done(rt, self.set_up(sheet)),
            Call::Load(word) => done(rt, self.load(word)),
            Call::Row { block, element } => done(rt, self.row(block, element)),
            Call::Column {
                block,
                coefficients,
            } => done(rt, self.column(block, coefficients)),
            Call::Decode => done(rt, self.decode()),
            Call::Clear => done(rt, self.clear()),
            Call::Weight(word) => match self.station.weight(word) {
                Ok(weight) => println!(rt; "weight {weight}"),
                Err(fault) => println!(rt; "{fault}"),
            },
            Call::Tally => match self.station.tally() {
                Ok(tally) => println!(rt; "words {} errors {}", tally.words, tally.errors),
                Err(fault) => println!(rt; "{fault}"),
            },
            Call::Encode { room, .. }
            | Call::Message { room, .. }
            | Call::Syndromes { room, .. }
            | Call::Dual { room } => self.write(rt, call, room),
            Call::Read { item, room } => self.read(rt, item, room),
        }
    }

    // What the station writes into a buffer.
    fn write(
        &self,
        rt: &(impl Print + AllocGlobal),
        call: Call<'_>,
        room: usize,
    ) -> io::Result<()> {
        let mut out = buffer(rt.alloc(), room)?;
        let answer = match call {
            Call::Encode { message, .. } => self.station.encode(message, out.as_mut_slice()),
            Call::Message { word, .. } => self.station.message(word, out.as_mut_slice()),
            Call::Syndromes { word, .. } => self.station.syndromes(word, out.as_mut_slice()),
            _ => self.station.dual(out.as_mut_slice()),
        };
        match answer {
            Ok(()) => println!(rt; "wrote{}", Row(out.as_slice())),
            Err(fault) => refused(rt, fault, out.as_slice()),
        }
    }

    // A part is printed where it is determined, and judged where there are hints.
    fn read(&self, rt: &(impl Print + AllocGlobal), item: usize, room: usize) -> io::Result<()> {
        let mut out = buffer(rt.alloc(), room)?;
        let counts = match self.station.read(item, out.as_mut_slice()) {
            Ok(counts) => counts,
            Err(fault) => return refused(rt, fault, out.as_slice()),
        };
        print!(rt;
            "full {} row {} column {}",
            counts.full, counts.row, counts.column
        )?;
        if item < 2 || (counts.row == 0 && counts.column == 0) {
            println!(rt; ":{}", Row(out.as_slice()))
        } else if self.splits(item, out.as_slice(), counts) {
            println!(rt; " splits")
        } else {
            println!(rt; " does not split")
        }
    }

    // Whether what was read is a part of a splitting.
    fn splits(&self, item: usize, read: &[u8], counts: Counts) -> bool {
        let Some(parts) = Parts::read(&self.station, self.told.len()) else {
            return false;
        };
        parts.part(item) == read && self.told.splits(&self.kind, &parts, counts.full)
    }
}

// What a station reports, without a change. What writes into a buffer is found first, for a buffer of its length, and then handed out.
ghost use Rattle.std.specs.Prelude.{◌≡◌, List, length, OnErr, IfOk};
ghost use Rattle.fields.specs.Elements.{Elem};
ghost use Rattle.hints.specs.Splittings.{Given};
ghost use Rattle.codes.specs.Writing.{written};
ghost use Rattle.station.specs.Calls.{wrote, weighs, counted, handed, encode, message, syndromes, dual, weight, tally, read};
ghost use Rattle.station.specs.Standings.{Sound, Reports, replied};

use super::Station;
use super::opening::open;
use crate::answers::Counts;
use crate::calls::Call;
use crate::judging::{exact_output, not_open};
use crate::reporting::{checked, encoded, part, read_back, turned, weighed};
use crate::state::State;
use crate::tally::Tally;
use crate::writing::{answer, hand_out, write};
use codes::SheetBytes;
use fields::Kind;
use sheets::{Fault, Layer, Reason};

impl<K: Kind> Station<K> {
    // The codeword of a message, for a buffer with this room; so of the others below.
    pub(crate) fn encoding(&self, message: &[u8], room: usize) -> Result<SheetBytes, Fault>
        ensures rules { Reports (K.meaning self.now.kind) self.now (encode message.now room) (replied (λ s. wrote (written s)) result) }
        ensures sized { let m = K.meaning self.now.kind in ((gs : List (Given (Elem m))) → Sound m self.now.state gs → IfOk result (λ s. length (written s) ≡ room)) }
    {
        open(&self.state, Call::Encode { message, room })?;
        let Some(code) = self.state.code() else {
            return Err(not_open());
        };
        encoded(&self.kind, code, message, room)
    }

    pub(crate) fn reading_back(&self, word: &[u8], room: usize) -> Result<SheetBytes, Fault>
        ensures rules { Reports (K.meaning self.now.kind) self.now (message word.now room) (replied (λ s. wrote (written s)) result) }
        ensures sized { let m = K.meaning self.now.kind in ((gs : List (Given (Elem m))) → Sound m self.now.state gs → IfOk result (λ s. length (written s) ≡ room)) }
    {
        open(&self.state, Call::Message { word, room })?;
        let Some(code) = self.state.code() else {
            return Err(not_open());
        };
        read_back(&self.kind, code, word, room)
    }

    pub(crate) fn checking(&self, word: &[u8], room: usize) -> Result<SheetBytes, Fault>
        ensures rules { Reports (K.meaning self.now.kind) self.now (syndromes word.now room) (replied (λ s. wrote (written s)) result) }
        ensures sized { let m = K.meaning self.now.kind in ((gs : List (Given (Elem m))) → Sound m self.now.state gs → IfOk result (λ s. length (written s) ≡ room)) }
    {
        open(&self.state, Call::Syndromes { word, room })?;
        let Some(code) = self.state.code() else {
            return Err(not_open());
        };
        checked(&self.kind, code, word, room)
    }

    pub(crate) fn turning(&self, room: usize) -> Result<SheetBytes, Fault>
        ensures rules { Reports (K.meaning self.now.kind) self.now (dual room) (replied (λ s. wrote (written s)) result) }
        ensures sized { let m = K.meaning self.now.kind in ((gs : List (Given (Elem m))) → Sound m self.now.state gs → IfOk result (λ s. length (written s) ≡ room)) }
    {
        open(&self.state, Call::Dual { room })?;
        let Some(code) = self.state.code() else {
            return Err(not_open());
        };
        turned(&self.kind, code, room)
    }

    pub(crate) fn reading(&self, item: usize, room: usize) -> Result<(SheetBytes, Counts), Fault>
        ensures rules { Reports (K.meaning self.now.kind) self.now (read item room) (replied (λ s. handed (written s.0) s.1.full s.1.row s.1.column) result) }
        ensures sized { let m = K.meaning self.now.kind in ((gs : List (Given (Elem m))) → Sound m self.now.state gs → IfOk result (λ s. length (written s.0) ≡ room)) }
    {
        open(&self.state, Call::Read { item, room })?;
        let State::Solved {
            recovery,
            row,
            column,
            ..
        } = &self.state
        else {
            return Err(not_open());
        };
        let Some(symbols) = part(recovery, item) else {
            return Err(Layer::Station.fault(Reason::OutOfRange, 0));
        };
        exact_output(room, symbols.len())?;
        let counts = Counts {
            full: recovery.errors,
            row: *row,
            column: *column,
        };
        Ok((answer(symbols), counts))
    }

    // Writes the codeword of a message.
    pub fn encode(&self, message: &[u8], out: &mut [u8]) -> Result<(), Fault>
        ensures kept { OnErr result (out.new ≡ out.old) }
        ensures rules { Reports (K.meaning self.now.kind) self.now (encode message.now (length out.old)) (replied (λ _. wrote out.new) result) }
    {
        let found = self.encoding(message, out.len());
        hand_out(found, out)
    }

    // Writes the one message of a codeword.
    pub fn message(&self, word: &[u8], out: &mut [u8]) -> Result<(), Fault>
        ensures kept { OnErr result (out.new ≡ out.old) }
        ensures rules { Reports (K.meaning self.now.kind) self.now (message word.now (length out.old)) (replied (λ _. wrote out.new) result) }
    {
        let found = self.reading_back(word, out.len());
        hand_out(found, out)
    }

    // Writes the syndromes of a word.
    pub fn syndromes(&self, word: &[u8], out: &mut [u8]) -> Result<(), Fault>
        ensures kept { OnErr result (out.new ≡ out.old) }
        ensures rules { Reports (K.meaning self.now.kind) self.now (syndromes word.now (length out.old)) (replied (λ _. wrote out.new) result) }
    {
        let found = self.checking(word, out.len());
        hand_out(found, out)
    }

    // Writes the sheet of the dual code.
    pub fn dual(&self, out: &mut [u8]) -> Result<(), Fault>
        ensures kept { OnErr result (out.new ≡ out.old) }
        ensures rules { Reports (K.meaning self.now.kind) self.now (dual (length out.old)) (replied (λ _. wrote out.new) result) }
    {
        let found = self.turning(out.len());
        hand_out(found, out)
    }

    // The weight of a word.
    pub fn weight(&self, word: &[u8]) -> Result<usize, Fault>
        ensures { Reports (K.meaning self.now.kind) self.now (weight word.now) (replied weighs result) }
    {
        open(&self.state, Call::Weight(word))?;
        let Some(code) = self.state.code() else {
            return Err(not_open());
        };
        weighed(&self.kind, code, word)
    }

    // How many words were recovered, and the sum of their full errors.
    pub fn tally(&self) -> Result<Tally, Fault>
        ensures { Reports (K.meaning self.now.kind) self.now tally (replied (λ t. counted t.words t.errors) result) }
    {
        open(&self.state, Call::Tally)?;
        Ok(self.tally)
    }

    // Writes an item of what was recovered: 0 the message, 1 the codeword, 2 the full, 3 the row and 4 the column part.
    pub fn read(&self, item: usize, out: &mut [u8]) -> Result<Counts, Fault>
        ensures kept { OnErr result (out.new ≡ out.old) }
        ensures rules { Reports (K.meaning self.now.kind) self.now (read item (length out.old)) (replied (λ n. handed out.new n.full n.row n.column) result) }
    {
        let (symbols, counts) = self.reading(item, out.len())?;
        write(out, symbols.as_slice());
        Ok(counts)
    }
}

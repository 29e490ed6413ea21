// A call, put to a station.
ghost use Rattle.std.specs.Prelude.{◌≡◌};
ghost use Rattle.station.specs.Standings.{Goes, command_of, reply_of, replied};

use super::Station;
use crate::answers::Answer;
use crate::calls::Call;
use fields::Kind;
use sheets::Fault;

impl<K: Kind> Station<K> {
    // The answer to a call, whichever it is.
    pub(crate) fn put(&mut self, call: Call<'_>) -> Result<Answer, Fault>
        ensures kind { self.new.kind ≡ self.old.kind }
        ensures rules { Goes (K.meaning self.old.kind) self.old (command_of call.entry) (replied reply_of result) self.new }
    {
        let answer = match call {
            Call::SetUp(sheet) => self.set_up(sheet).map(|()| Answer::Done)?,
            Call::Load(word) => self.load(word).map(|()| Answer::Done)?,
            Call::Row { block, element } => self.row(block, element).map(|()| Answer::Done)?,
            Call::Column {
                block,
                coefficients,
            } => self.column(block, coefficients).map(|()| Answer::Done)?,
            Call::Decode => self.decode().map(|()| Answer::Done)?,
            Call::Clear => self.clear().map(|()| Answer::Done)?,
            Call::Encode { message, room } => Answer::Wrote(self.encoding(message, room)?),
            Call::Message { word, room } => Answer::Wrote(self.reading_back(word, room)?),
            Call::Syndromes { word, room } => Answer::Wrote(self.checking(word, room)?),
            Call::Dual { room } => Answer::Wrote(self.turning(room)?),
            Call::Weight(word) => Answer::Weighs(self.weight(word)?),
            Call::Tally => Answer::Counted(self.tally()?),
            Call::Read { item, room } => {
                let (symbols, counts) = self.reading(item, room)?;
                Answer::Handed(symbols, counts)
            }
        };
        Ok(answer)
    }
}

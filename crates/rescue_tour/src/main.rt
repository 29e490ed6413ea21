// Words of the tour's code are damaged, and a station recovers them without hints and with them.
#![tactic(auto)]

use codes::Symbols;
use fields::{Kind, Mod13};
use rescues::{MORE, rescue};
use sheets::Fault;
use shown::{DAMAGE, MESSAGE, SHEET, damaged, line, refused};
use station::Station;
use std::io;

// The word of the message.
fn sent<K: Kind>(station: &Station<K>) -> Result<Symbols, Fault> {
    let mut word = [0; 4];
    station.encode(&MESSAGE, &mut word)?;
    let mut symbols = Symbols::empty();
    symbols.append(&word);
    Ok(symbols)
}

fn travel<K: Kind>(
    rt: &impl Print,
    kind: &K,
    station: &mut Station<K>,
    word: &Symbols,
) -> io::Result<()> {
    line(rt, "word", word.as_slice())?;
    let near = damaged(kind, word, &DAMAGE);
    let far = damaged(kind, word, &MORE);
    rescue(rt, station, near.as_slice(), &[])?;
    rescue(rt, station, far.as_slice(), &[])?;
    rescue(rt, station, far.as_slice(), &[2])?;
    rescue(rt, station, far.as_slice(), &[2, 3])
}

fn main(rt: HostRuntime) -> io::Result<()> {
    let mut station = Station::new(Mod13);
    if let Err(fault) = station.set_up(&SHEET) {
        return refused(&rt, fault);
    }
    match sent(&station) {
        Ok(word) => travel(&rt, &Mod13, &mut station, &word),
        Err(fault) => refused(&rt, fault),
    }
}

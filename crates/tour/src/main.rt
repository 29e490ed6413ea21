// A journey through the codec, a session with one station, each step printed: it is set up with the sheet of a code over the integers
// modulo 13, one message is encoded, the word and a damaged one are weighed and checked, and words with damage are recovered, by hints too.
#![tactic(auto)]

use codes::Symbols;
use fields::{Kind, Mod13};
use rescues::{MORE, rescue};
use sheets::Fault;
use shown::{DAMAGE, MESSAGE, SHEET, damaged, line};
use station::Station;
use std::io;

// A call that writes: what it wrote, or its refusal.
fn written(
    rt: &impl Print,
    name: &str,
    answer: Result<(), Fault>,
    symbols: &[u8],
) -> io::Result<()> {
    match answer {
        Ok(()) => line(rt, name, symbols),
        Err(fault) => println!(rt; "{name}: {fault}"),
    }
}

// A call that answers nothing but whether it is refused.
fn called(rt: &impl Print, name: &str, answer: Result<(), Fault>) -> io::Result<()> {
    match answer {
        Ok(()) => println!(rt; "{name}: done"),
        Err(fault) => println!(rt; "{name}: {fault}"),
    }
}

// A word: its weight, its syndromes, and its message if it is a codeword.
fn inspect<K: Kind>(rt: &impl Print, station: &Station<K>, word: &[u8]) -> io::Result<()> {
    line(rt, "word", word)?;
    match station.weight(word) {
        Ok(w) => println!(rt; "  weight {w}")?,
        Err(fault) => println!(rt; "  weight: {fault}")?,
    }
    let mut syndromes = [0; 2];
    let checked = station.syndromes(word, &mut syndromes);
    written(rt, "  syndromes", checked, &syndromes)?;
    let mut message = [0; 2];
    let read = station.message(word, &mut message);
    written(rt, "  message", read, &message)
}

fn travel<K: Kind>(rt: &impl Print, kind: &K, station: &mut Station<K>) -> io::Result<()> {
    called(rt, "load", station.load(&MESSAGE))?;
    line(rt, "sheet", &SHEET)?;
    called(rt, "set up", station.set_up(&SHEET))?;
    let mut sheet = [0; 17];
    let turned = station.dual(&mut sheet);
    written(rt, "dual sheet", turned, &sheet)?;
    line(rt, "message", &MESSAGE)?;
    let mut word = [0; 4];
    let encoded = station.encode(&MESSAGE, &mut word);
    written(rt, "encoded", encoded, &word)?;
    inspect(rt, station, &word)?;
    let mut sent = Symbols::empty();
    sent.append(&word);
    let near = damaged(kind, &sent, &DAMAGE);
    inspect(rt, station, near.as_slice())?;
    rescue(rt, station, near.as_slice(), &[])?;
    let far = damaged(kind, &sent, &MORE);
    rescue(rt, station, far.as_slice(), &[2])?;
    rescue(rt, station, far.as_slice(), &[2, 3])?;
    match station.tally() {
        Ok(t) => println!(rt; "tally {} words, {} full errors", t.words, t.errors),
        Err(fault) => println!(rt; "tally: {fault}"),
    }
}

fn main(rt: HostRuntime) -> io::Result<()> {
    let mut station = Station::new(Mod13);
    travel(&rt, &Mod13, &mut station)
}

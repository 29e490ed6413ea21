// A damaged word, the hints on it, and what a station recovers, as both tours show it.
#![tactic(auto)]

use fields::Kind;
use shown::{MESSAGE, line};
use station::Station;
use std::io;

// What is added to two symbols of the word.
pub const MORE: [u8; 4] = [0, 1, 1, 0];

// An item of what was recovered, of so many symbols, at most 24.
fn item<K: Kind>(
    rt: &impl Print,
    station: &Station<K>,
    name: &str,
    number: usize,
    size: usize,
) -> io::Result<()> {
    let mut symbols = [0; 24];
    let Some(out) = symbols.get_mut(..size) else {
        return println!(rt; "{name}: no room");
    };
    match station.read(number, out) {
        Ok(_) => line(rt, name, out),
        Err(fault) => println!(rt; "{name}: {fault}"),
    }
}

// What was recovered of a word with n symbols.
fn recovered<K: Kind>(rt: &impl Print, station: &Station<K>, n: usize) -> io::Result<()> {
    item(rt, station, "  recovered", 1, n)?;
    item(rt, station, "  message", 0, MESSAGE.len())?;
    match station.read(2, &mut [0; 4]) {
        Ok(counts) => println!(rt; "  full errors {}", counts.full)?,
        Err(fault) => println!(rt; "  full errors: {fault}")?,
    }
    item(rt, station, "  full part", 2, n)?;
    item(rt, station, "  row part", 3, n)?;
    item(rt, station, "  column part", 4, n)
}

// A word is loaded, the symbols of these blocks, of one symbol each, are given up, a column hint for each, and it is decoded and cleared.
pub fn rescue<K: Kind>(
    rt: &impl Print,
    station: &mut Station<K>,
    word: &[u8],
    blocks: &[u8],
) -> io::Result<()> {
    line(rt, "damaged", word)?;
    if let Err(fault) = station.load(word) {
        return println!(rt; "  {fault}");
    }
    for b in blocks {
        match station.column(usize::from(*b), &[1]) {
            Ok(()) => println!(rt; "  block {b} is given up")?,
            Err(fault) => println!(rt; "  block {b}: {fault}")?,
        }
    }
    match station.decode() {
        Ok(()) => recovered(rt, station, word.len())?,
        Err(_) => println!(rt; "  no codeword is in reach")?,
    }
    if let Err(fault) = station.clear() {
        return println!(rt; "  {fault}");
    }
    Ok(())
}

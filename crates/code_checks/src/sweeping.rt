// Sheets of small codes in which one byte takes every value.
use crate::bytes::Altered;
use crate::drafts::Draft;
use codes::{SheetBytes, set_up};
use fields::Kind;
use std::io;

// How a sheet with each byte at one place is answered: how often with each number, 0 for a code.
fn every<K: Kind>(rt: &impl Print, kind: &K, sheet: &SheetBytes, place: usize) -> io::Result<()> {
    let mut counts = [0u16; 8];
    for x in 0..=255u8 {
        let answer = match set_up(kind, sheet.with(place, x).as_slice()) {
            Ok(_) => 0,
            Err(fault) => usize::from(fault.number()),
        };
        if let Some(n) = counts.get_mut(answer) {
            *n = n.saturating_add(1);
        }
    }
    print!(rt; "every")?;
    for n in counts {
        print!(rt; " {n}")?;
    }
    println!(rt; "")
}

// Two small codes, in which one byte takes every value: a parameter beside 1, a locator beside 1, and a locator alone.
pub fn sweeps<K: Kind>(rt: &impl Print, kind: &K, c: u8) -> io::Result<()> {
    let mut two = Draft::empty();
    for x in [1, c] {
        two.lengths.push(1);
        two.parameters.push(x);
        two.locators.push(1);
    }
    let sheet = two.sheet(kind.number(), 1);
    every(rt, kind, &sheet, 7)?;
    every(rt, kind, &sheet, 9)?;
    let mut one = Draft::empty();
    one.lengths.push(2);
    one.parameters.push(c);
    one.locators.push(1);
    one.locators.push(0);
    every(rt, kind, &one.sheet(kind.number(), 1), 8)
}

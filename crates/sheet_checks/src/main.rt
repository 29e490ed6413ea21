// Reads cases from the input, one to a line: the kind number that is asked for, and then the bytes of a sheet, all in decimal.
// Prints what the reader of sheets answers. It is held to what an unrelated computation printed (reference/sheets.py).
#![tactic(auto)]

use drills::numbers;
use sheets::{Section, read_sheet};
use shown::Row;
use std::io;
use std::io::{BufRead, BufReader};

// A section: what it is, its offset and its bytes.
fn show(rt: &impl Print, name: &str, section: Section) -> io::Result<()> {
    print!(rt; " {name} {} :{}", section.offset(), Row(section.bytes()))
}

fn report(rt: &impl Print, number: u8, bytes: &[u8]) -> io::Result<()> {
    match read_sheet(number, bytes) {
        Ok(sheet) => {
            print!(rt; "ok {}", sheet.dimension)?;
            show(rt, "lengths", sheet.lengths)?;
            show(rt, "parameters", sheet.parameters)?;
            show(rt, "locators", sheet.locators)?;
            println!(rt; "")
        }
        Err(fault) => println!(rt; "{fault}"),
    }
}

fn main(rt: HostRuntime) -> anyhow::Result<()> {
    let heap = rt.alloc();
    for line in BufReader::new(heap, rt.stdin())?.lines(heap) {
        let line = line?;
        let all = numbers(heap, line.as_str())?;
        if let [number, bytes @ ..] = all.as_slice() {
            report(&rt, *number, bytes)?;
        }
    }
    Ok(())
}

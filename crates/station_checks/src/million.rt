// A tally that is filled: words of a small code come round until all but one of a million are recovered, then one more is, and then none.
use crate::lines::Line;
use crate::session::Session;
use fields::Mod13;
use sheets::Fault;

// Kind 4, dimension 1; three blocks of one symbol, their parameters, and the locators.
const SHEET: [u8; 14] = [4, 1, 3, 1, 1, 1, 3, 1, 2, 3, 3, 1, 1, 1];

const ROUND: [[u8; 3]; 5] = [[5, 5, 5], [7, 7, 0], [12, 3, 12], [0, 0, 0], [1, 9, 9]];

const CALLS: &str = "tally
load 0 1 2
decode
tally
clear
load 8 8 4
decode
tally
read 0 1
read 1 3
read 2 3
decode
clear
tally
load 8 8 4
decode
row 1 6
row 1 5
decode
column 2 1
row 3 4
decode
read 1 3
tally
clear
load 0 1 2
decode
encode 3 4
message 1 4 4 4
message 1 4 4 5
syndromes 2 8 8 4
dual 14
weight 8 8 4
clear
tally";

fn all_but_one(session: &mut Session<Mod13>) -> Result<(), Fault> {
    session.set_up(&SHEET)?;
    for i in 0..999999usize {
        session.load(&ROUND[i % ROUND.len()])?;
        session.decode()?;
        session.clear()?;
    }
    Ok(())
}

pub fn million(rt: &(impl Print + AllocGlobal)) -> anyhow::Result<()> {
    println!(rt; "a million words")?;
    let mut session = Session::new(Mod13);
    all_but_one(&mut session)?;
    for text in CALLS.lines() {
        let line = Line::read(rt.alloc(), text)?;
        session.answer(rt, line.call()?)?;
    }
    Ok(())
}

// Sessions with the two codes that all documents use, and what a station answers, as docs/station.md has it.
use fields::{Gf16, Mod13};
use sheets::{Layer, Reason};
use shown::{MESSAGE, SECOND_SHEET, SHEET};
use station::{Answer, Call, Station, replay};
use std::alloc::AllocError;

// Two symbols are wrong: each hint that gives one up costs half of what a full error does.
#[test]
fn two_symbols_are_given_up(rt: HostRuntime) {
    let mut station = Station::new(Mod13);
    let not_open = Err(Layer::Station.fault(Reason::NotOpen, 0));
    let out_of_reach = Err(Layer::Station.fault(Reason::OutOfReach, 0));
    assert_eq!(rt; station.load(&[8, 12, 2, 4]), not_open);
    assert_eq!(rt; station.set_up(&SHEET), Ok(()));
    assert_eq!(rt; station.load(&[8, 12, 2, 4]), Ok(()));
    assert_eq!(rt; station.decode(), out_of_reach);
    assert_eq!(rt; station.column(2, &[1]), Ok(()));
    assert_eq!(rt; station.decode(), out_of_reach);
    assert_eq!(rt; station.column(3, &[1]), Ok(()));
    assert_eq!(rt; station.decode(), Ok(()));
    let mut word = [0; 4];
    assert!(rt; station.read(1, &mut word).is_ok());
    assert_eq!(rt; word, [8, 11, 1, 4]);
    let mut message = [0; 2];
    assert!(rt; station.read(0, &mut message).is_ok());
    assert_eq!(rt; message, MESSAGE);
    assert_eq!(rt; station.row(1, 1), not_open);
}

// Hints that depend on others, and hints past the budget.
#[test]
fn hints_are_judged_in_order(rt: HostRuntime) {
    let mut station = Station::new(Gf16);
    assert_eq!(rt; station.set_up(&SECOND_SHEET), Ok(()));
    assert_eq!(rt; station.load(&[8, 4, 3, 13]), Ok(()));
    assert_eq!(rt; station.row(1, 8), Ok(()));
    assert_eq!(rt;
        station.row(1, 5),
        Err(Layer::Station.fault(Reason::DependentHint, 0))
    );
    assert_eq!(rt; station.column(2, &[0, 1]), Ok(()));
    assert_eq!(rt;
        station.row(2, 1),
        Err(Layer::Station.fault(Reason::Spent, 0))
    );
    assert_eq!(rt;
        station.row(3, 1),
        Err(Layer::Station.fault(Reason::OutOfRange, 0))
    );
    assert_eq!(rt; station.decode(), Ok(()));
    let mut word = [0; 4];
    assert!(rt; station.read(1, &mut word).is_ok());
    assert_eq!(rt; word, [0, 1, 3, 4]);
}

// What is refused leaves the buffer as it was.
#[test]
fn a_refusal_writes_nothing(rt: HostRuntime) {
    let mut station = Station::new(Mod13);
    assert_eq!(rt; station.set_up(&SHEET), Ok(()));
    let mut out = [7; 4];
    assert!(rt;
        station.encode(&[5, 13], &mut out) == Err(Layer::Station.fault(Reason::NoSymbol, 1))
    );
    assert_eq!(rt; out, [7, 7, 7, 7]);
    assert_eq!(rt; station.encode(&MESSAGE, &mut out), Ok(()));
    assert_eq!(rt; out, [8, 11, 1, 4]);
}

// The answers of a list of calls, and the station behind it.
#[test]
fn calls_are_replayed(rt: HostRuntime) -> Result<(), AllocError> {
    let calls = [
        Call::Load(&[8, 12, 1, 4]),
        Call::SetUp(&SHEET),
        Call::Load(&[8, 12, 1, 4]),
        Call::Decode,
        Call::Read { item: 1, room: 4 },
        Call::Tally,
    ];
    let (station, answers) = replay(rt.alloc(), Mod13, &calls)?;
    assert_eq!(rt; answers.len(), 6);
    assert!(rt; matches!(&answers[0], Err(fault) if fault.reason == Reason::NotOpen));
    assert!(rt; matches!(&answers[3], Ok(Answer::Done)));
    let Ok(Answer::Handed(word, counts)) = &answers[4] else {
        return Err(AllocError);
    };
    assert!(rt; word.as_slice() == [8, 11, 1, 4].as_slice());
    assert_eq!(rt; counts.full, 1);
    assert!(rt; matches!(&answers[5], Ok(Answer::Counted(t)) if t.words == 1 && t.errors == 1));
    assert!(rt; station.tally().is_ok());
    Ok(())
}

// Lines of the output.
use codes::{Code, set_up};
use fields::Kind;
use shown::{Places, Row};
use std::io;

fn code(rt: &impl Print, code: &Code) -> io::Result<()> {
    println!(rt;
        "code {} lengths{} points{}",
        code.dimension,
        Row(code.lengths.as_slice()),
        Places(code.course.as_slice())
    )
}

// What is answered to a sheet: the code, or the refusal.
pub fn judged<K: Kind>(rt: &impl Print, kind: &K, sheet: &[u8]) -> io::Result<()> {
    match set_up(kind, sheet) {
        Ok(made) => code(rt, &made),
        Err(fault) => println!(rt; "{fault}"),
    }
}

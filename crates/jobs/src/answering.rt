// A job over the kind that it names, as text.
ghost use Rattle.skew.specs.Few.{held};
ghost use Rattle.jobs.specs.Answers.{Answers};

use crate::running::run;
use crate::text::{Text, write};
use fields::{Gf16, Gf81, Gf256, Mirror, Mod13};
use sheets::{Layer, Reason};

// The text of a job: its first byte picks the kind.
pub fn answer(job: &[u8]) -> Text
    ensures { Answers job.now (held result) }
{
    let [number, ..] = job else {
        return write(Err(Layer::Sheet.fault(Reason::MissingByte, 0)));
    };
    let outcome = match *number {
        1 => run(Gf256, job),
        2 => run(Gf16, job),
        3 => run(Gf81, job),
        4 => run(Mod13, job),
        129 => run(Mirror { inner: Gf256 }, job),
        130 => run(Mirror { inner: Gf16 }, job),
        131 => run(Mirror { inner: Gf81 }, job),
        132 => run(Mirror { inner: Mod13 }, job),
        _ => Err(Layer::Sheet.fault(Reason::OtherKind, 0)),
    };
    write(outcome)
}

// The entry for hosts in C: a job in, a text out. Its contract carries the whole codec to that boundary.
#![tactic(auto)]

ghost use Rattle.lrs.specs.Entries.{Written};

use jobs::{ROOM, answer};

// Runs a job and writes its text at the front of the buffer: how long the text is. A buffer below 1,024 bytes is not written, and gives 0;
// bytes behind the text keep their values.
#[unsafe(no_mangle)]
pub extern "C" fn lrs_job(job: &[u8], buffer: &mut [u8]) -> usize
    ensures { Written job.now buffer.old buffer.new result }
{
    if buffer.len() < ROOM {
        return 0;
    }
    let text = answer(job);
    let bytes = text.as_slice();
    buffer[..bytes.len()].copy_from_slice(bytes);
    bytes.len()
}

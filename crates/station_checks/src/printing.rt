// What is printed of a call, and the buffers that calls write into.
use sheets::Fault;
use std::alloc::Global;
use std::io;

// What a buffer holds at place i before a call, so that it is seen what the call writes.
fn unwritten(i: usize) -> u8 {
    251 - (i % 5) as u8
}

// A buffer with this many places.
pub fn buffer(heap: Global, room: usize) -> io::Result<Vec<u8>> {
    Ok((0..room).map(unwritten).collect(heap)?)
}

// What is answered by a call that only alters the station.
pub fn done(rt: &impl Print, answer: Result<(), Fault>) -> io::Result<()> {
    match answer {
        Ok(()) => println!(rt; "ok"),
        Err(fault) => println!(rt; "{fault}"),
    }
}

// A refusal of a call that writes: the buffer has to be as it was.
pub fn refused(rt: &impl Print, fault: Fault, buffer: &[u8]) -> io::Result<()> {
    let kept = buffer.iter().enumerate().all(|(i, x)| *x == unwritten(i));
    let spoilt = if kept { "" } else { " spoilt" };
    println!(rt; "{fault}{spoilt}")
}

// Lines of the output.
use crate::rows::Row;
use sheets::Fault;
use skew::Few;
use std::io;

// One line: what the numbers are, and the numbers.
pub fn line(rt: &impl Print, name: &str, numbers: &[u8]) -> io::Result<()> {
    println!(rt; "{name}{}", Row(numbers))
}

// One line: a sheet is refused. Not the line of a fault: a tour leaves the layer out.
pub fn refused(rt: &impl Print, fault: Fault) -> io::Result<()> {
    println!(rt; "refused {} at place {}", fault.number(), fault.place)
}

// What is printed as numbers, a space before each.
pub trait Listed: Drop {
    fn list(&self, rt: &impl Print) -> io::Result<()>;
}

impl Listed for usize {
    fn list(&self, rt: &impl Print) -> io::Result<()> {
        print!(rt; " {self}")
    }
}

impl<const N: usize> Listed for Few<u8, N> {
    fn list(&self, rt: &impl Print) -> io::Result<()> {
        print!(rt; "{}", Row(self.as_slice()))
    }
}

// One line: what is looked for, and what is found, or `none`.
pub fn found<T: Listed>(rt: &impl Print, name: &str, answer: Option<T>) -> io::Result<()> {
    print!(rt; "{name}")?;
    match answer {
        Some(x) => x.list(rt)?,
        None => print!(rt; " none")?,
    }
    println!(rt; "")
}

// Every operation of every kind at every byte, and at every pair of bytes, for the shipped kinds, the brought one and their
// mirrors. What it prints is held to what an unrelated computation printed (reference/fields.py).
#![tactic(auto)]

use drills::{Checksum, Plan, Visit, each_kind};
use fields::Kind;
use std::io;

// The check sum over what an operation gives at every pair of bytes.
fn over_pairs<F: Fn(u8, u8) -> u8>(operation: F) -> u32
    requires { F.IsAlwaysCallable operation }
{
    let mut check = Checksum::new();
    for a in 0..=255u8 {
        for b in 0..=255u8 {
            check.take(operation(a, b));
        }
    }
    check.value()
}

fn digits<K: Kind>(kind: &K) -> u32 {
    let mut check = Checksum::new();
    for a in 0..=255u8 {
        for d in kind.digits(a) {
            check.take(d);
        }
    }
    check.value()
}

// What an operation gives at every byte.
fn row<F: Fn(u8) -> u8>(rt: &impl Print, name: &str, operation: F) -> io::Result<()>
    requires { F.IsAlwaysCallable operation }
{
    print!(rt; "{name}")?;
    for a in 0..=255u8 {
        print!(rt; " {}", operation(a))?;
    }
    println!(rt; "")
}

fn inverses<K: Kind>(rt: &impl Print, kind: &K) -> io::Result<()> {
    print!(rt; "inverse")?;
    for a in 0..=255u8 {
        match kind.inverse(a) {
            Some(b) => print!(rt; " {b}")?,
            None => print!(rt; " -")?,
        }
    }
    println!(rt; "")
}

fn report<K: Kind>(rt: &impl Print, kind: &K) -> io::Result<()> {
    println!(rt;
        "kind {} size {} width {}",
        kind.number(),
        kind.size(),
        kind.width()
    )?;
    print!(rt; "basis")?;
    for j in 0..10usize {
        print!(rt; " {}", kind.basis(j))?;
    }
    println!(rt; "\nsum {}", over_pairs(|a, b| kind.sum(a, b)))?;
    println!(rt; "product {}", over_pairs(|a, b| kind.product(a, b)))?;
    row(rt, "opposite", |a| kind.opposite(a))?;
    inverses(rt, kind)?;
    row(rt, "twist", |a| kind.twist(a))?;
    row(rt, "untwist", |a| kind.untwist(a))?;
    println!(rt; "digits {}", digits(kind))
}

// Where the operations are reported.
#[derive(Drop)]
struct Reporter<'a> {
    rt: &'a HostRuntime,
}

impl Visit for Reporter<'_> {
    fn visit<K: Kind, M: Kind>(&self, kind: &K, _mirror: &M, _plan: Plan) -> io::Result<()> {
        report(self.rt, kind)
    }
}

fn main(rt: HostRuntime) -> io::Result<()> {
    each_kind(&Reporter { rt: &rt })
}

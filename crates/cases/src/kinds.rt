// The kinds by their numbers.
ghost use Rattle.std.specs.Prelude.{◌≡◌, IfSome};
ghost use Rattle.fields.specs.Meaning.{Meaning};

use brought::Gf256Over16;
use fields::{Gf16, Gf81, Gf256, Kind, Mirror, Mod13};

// What is done with a kind, whichever it is; a kind is copied where something holds one.
pub trait Work: Drop {
    type Out;

    ghost gives: { Self → Meaning → Self.Out → Type 0 };

    fn run<K: Kind + Copy>(self, kind: &K) -> Self::Out
        ensures { gives self (K.meaning kind.now) result };
}

// What the work gives for the kind of this number; nothing where no kind has it.
pub fn with_kind<W: Work>(number: u8, work: W) -> Option<W::Out>
    ensures { IfSome result (λ out. (m : Meaning) × (m.number ≡ number) × W.gives work m out) }
{
    match number {
        1 => Some(work.run(&Gf256)),
        2 => Some(work.run(&Gf16)),
        3 => Some(work.run(&Gf81)),
        4 => Some(work.run(&Mod13)),
        200 => Some(work.run(&Gf256Over16)),
        129 => Some(work.run(&Mirror { inner: Gf256 })),
        130 => Some(work.run(&Mirror { inner: Gf16 })),
        131 => Some(work.run(&Mirror { inner: Gf81 })),
        132 => Some(work.run(&Mirror { inner: Mod13 })),
        72 => Some(work.run(&Mirror { inner: Gf256Over16 })),
        _ => None,
    }
}

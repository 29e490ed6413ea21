// A kind as a customer brings it: GF(256) over GF(16), by tables of powers and logarithms of 2, and of 16th powers, modulo
// z^8 + z^4 + z^3 + z^2 + 1. Twist is the 16th power, the fixed elements are a GF(16), and two digits make an element.
#![tactic(auto, using(crate::proofs::Calls::answers))]

ghost use Rattle.std.specs.Prelude.{◌≡◌};
ghost use Rattle.fields.specs.Residues.{product, power};
ghost use Rattle.fields.specs.Shipped.{modulus256};
ghost use Rattle.brought.specs.Over16.{over16};
ghost use Rattle.brought.specs.Laws.{over16_laws};

use fields::Kind;
use tables::{LOGS, POWERS, TWISTS};

mod tables;

#[derive(Clone, Copy, Debug, Default, PartialEq, Eq)]
pub struct Gf256Over16;

fn times(a: u8, b: u8) -> u8
    ensures { result ≡ product modulus256 a b }
{
    if a == 0 || b == 0 {
        return 0;
    }
    POWERS[LOGS[a as usize] as usize + LOGS[b as usize] as usize]
}

fn sixteenth(a: u8) -> u8
    ensures { result ≡ power modulus256 16 a }
{
    TWISTS[a as usize]
}

impl Kind for Gf256Over16 {
    ghost meaning = { λ _. over16 };

    ghost lawful = { λ k. over16_laws };

    fn number(&self) -> u8 {
        200
    }

    fn size(&self) -> u16 {
        256
    }

    fn sum(&self, a: u8, b: u8) -> u8 {
        a ^ b
    }

    fn opposite(&self, a: u8) -> u8 {
        a
    }

    fn product(&self, a: u8, b: u8) -> u8 {
        times(a, b)
    }

    fn inverse(&self, a: u8) -> Option<u8> {
        if a == 0 {
            None
        } else {
            Some(POWERS[255 - LOGS[a as usize] as usize])
        }
    }

    fn twist(&self, a: u8) -> u8 {
        sixteenth(a)
    }

    fn untwist(&self, a: u8) -> u8 {
        sixteenth(a)
    }

    fn width(&self) -> usize {
        2
    }

    fn basis(&self, j: usize) -> u8 {
        match j {
            1 => 1,
            2 => 2,
            _ => 0,
        }
    }

    // Digit j is the trace of c_j times a: that product plus its 16th power.
    fn digits(&self, a: u8) -> [u8; 8] {
        let x = times(139, a);
        let y = times(69, a);
        [x ^ sixteenth(x), y ^ sixteenth(y), 0, 0, 0, 0, 0, 0]
    }
}

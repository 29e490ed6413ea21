// Kind 2: bit polynomials modulo z^4 + z + 1, by tables of powers and logarithms of 2.
#![tactic(auto, using(crate::proofs::TableAnswers::answers))]

ghost use Rattle.std.specs.Prelude.{◌≡◌, ℕ, ◌<◌};
ghost use Rattle.fields.specs.Residues.{product};
ghost use Rattle.fields.specs.Shipped.{modulus16, gf16};
ghost use Rattle.fields.specs.ShippedLaws.{gf16_laws};

use super::{Kind, clipped};

#[derive(Clone, Copy, Debug, Default, PartialEq, Eq)]
pub struct Gf16;

// The powers of 2, and the exponents; 0 has none, and stands as 0.
const POWERS: [u8; 16] = [1, 2, 4, 8, 3, 6, 12, 11, 5, 10, 7, 14, 15, 13, 9, 1];

const LOGS: [u8; 16] = [0, 0, 1, 4, 2, 8, 5, 10, 3, 14, 9, 7, 6, 13, 11, 12];

// The digits of each element.
const DIGIT_1: [u8; 16] = [0, 1, 0, 1, 6, 7, 6, 7, 6, 7, 6, 7, 0, 1, 0, 1];

const DIGIT_2: [u8; 16] = [0, 0, 1, 1, 1, 1, 0, 0, 7, 7, 6, 6, 6, 6, 7, 7];

fn times(a: u8, b: u8) -> u8
    requires a { a < 16 }
    requires b { b < 16 }
    ensures value { result ≡ product modulus16 a b }
    ensures below { result < 16 }
{
    if a == 0 || b == 0 {
        return 0;
    }
    POWERS[(LOGS[a as usize] as usize + LOGS[b as usize] as usize) % 15]
}

// The fourth power, which undoes itself.
fn fourth(a: u8) -> u8
    requires { a < 16 }
    ensures { result ≡ product modulus16 (product modulus16 a a) (product modulus16 a a) }
{
    if a == 0 {
        return 0;
    }
    POWERS[(4 * LOGS[a as usize] as usize) % 15]
}

impl Kind for Gf16 {
    ghost meaning = { λ _. gf16 };

    ghost lawful = { λ k. gf16_laws };

    fn number(&self) -> u8 {
        2
    }

    fn size(&self) -> u16 {
        16
    }

    fn sum(&self, a: u8, b: u8) -> u8 {
        clipped::<16>(a) ^ clipped::<16>(b)
    }

    fn opposite(&self, a: u8) -> u8 {
        clipped::<16>(a)
    }

    fn product(&self, a: u8, b: u8) -> u8 {
        times(clipped::<16>(a), clipped::<16>(b))
    }

    fn inverse(&self, a: u8) -> Option<u8> {
        let x = clipped::<16>(a);
        if x == 0 {
            None
        } else {
            Some(POWERS[(15 - LOGS[x as usize] as usize) % 15])
        }
    }

    fn twist(&self, a: u8) -> u8 {
        fourth(clipped::<16>(a))
    }

    fn untwist(&self, a: u8) -> u8 {
        fourth(clipped::<16>(a))
    }

    fn width(&self) -> usize {
        2
    }

    fn basis(&self, j: usize) -> u8 {
        match j {
            1 => 1,
            2 => 2,
            _ => 0,
        }
    }

    fn digits(&self, a: u8) -> [u8; 8] {
        let x = clipped::<16>(a) as usize;
        [DIGIT_1[x], DIGIT_2[x], 0, 0, 0, 0, 0, 0]
    }
}

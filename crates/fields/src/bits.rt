// Kind 1: bit polynomials modulo z^8 + z^4 + z^3 + z^2 + 1; bit 0 is the constant. Every operation is shifts, masks and
// exclusive or, without a branch; the inverse alone asks whether its argument is 0.
#![tactic(auto, using(crate::proofs::BitAnswers::answers))]

ghost use Rattle.std.specs.Prelude.{◌≡◌, ℕ, ◌%◌, if◌then◌else◌, nat_eq};
ghost use Rattle.fields.specs.Residues.{raised, product, power};
ghost use Rattle.fields.specs.Shipped.{modulus256, gf256};
ghost use Rattle.fields.specs.Additive.{spread};
ghost use Rattle.fields.specs.ShippedLaws.{gf256_laws};

use super::Kind;

#[derive(Clone, Copy, Debug, Default, PartialEq, Eq)]
pub struct Gf256;

// What additive maps make of the bits 1, 2, 4 and so on: the fourth power, the 64th, and the four digits.
const FOURTH: [u8; 8] = [1, 16, 29, 205, 76, 180, 143, 24];

const SIXTY_FOURTH: [u8; 8] = [1, 95, 133, 130, 2, 190, 23, 25];

const DIGIT_1: [u8; 8] = [1, 0, 0, 0, 214, 214, 1, 1];

const DIGIT_2: [u8; 8] = [0, 1, 0, 0, 214, 0, 215, 0];

const DIGIT_3: [u8; 8] = [0, 0, 1, 0, 214, 0, 1, 214];

const DIGIT_4: [u8; 8] = [0, 0, 0, 1, 1, 215, 215, 214];

// x where the lowest bit of the choice is 1, else 0.
fn chosen(x: u8, choice: u8) -> u8
    ensures { result ≡ (if nat_eq (choice % 2) 1 then x else 0) }
{
    x & 0u8.wrapping_sub(choice & 1)
}

// z times a: one place up, and z^8 is z^4 + z^3 + z^2 + 1.
fn double(a: u8) -> u8
    ensures { result ≡ raised modulus256 a }
{
    (a << 1) ^ chosen(0x1d, a >> 7)
}

fn times(a: u8, b: u8) -> u8
    ensures { result ≡ product modulus256 a b }
{
    let mut sum = 0u8;
    let mut x = a;
    let mut y = b;
    for _ in 0..8u8 {
        sum ^= chosen(x, y);
        x = double(x);
        y >>= 1;
    }
    sum
}

// The value at a of the additive map that takes the bits to these images.
fn mapped(images: &[u8; 8], a: u8) -> u8
    ensures { result ≡ spread images.now a }
{
    let mut sum = 0u8;
    let mut y = a;
    for x in images {
        sum ^= chosen(*x, y);
        y >>= 1;
    }
    sum
}

// The power 254 of a: the product of its powers 2, 4, 8, .., 128.
fn reciprocal(a: u8) -> u8
    ensures { result ≡ power modulus256 254 a }
{
    let mut x = a;
    let mut all = 1;
    for _ in 0..7u8 {
        x = times(x, x);
        all = times(all, x);
    }
    all
}

impl Kind for Gf256 {
    ghost meaning = { λ _. gf256 };

    ghost lawful = { λ k. gf256_laws };

    fn number(&self) -> u8 {
        1
    }

    fn size(&self) -> u16 {
        256
    }

    fn sum(&self, a: u8, b: u8) -> u8 {
        a ^ b
    }

    fn opposite(&self, a: u8) -> u8 {
        a
    }

    fn product(&self, a: u8, b: u8) -> u8 {
        times(a, b)
    }

    fn inverse(&self, a: u8) -> Option<u8> {
        if a == 0 { None } else { Some(reciprocal(a)) }
    }

    fn twist(&self, a: u8) -> u8 {
        mapped(&FOURTH, a)
    }

    fn untwist(&self, a: u8) -> u8 {
        mapped(&SIXTY_FOURTH, a)
    }

    fn width(&self) -> usize {
        4
    }

    fn basis(&self, j: usize) -> u8 {
        match j {
            1 => 1,
            2 => 2,
            3 => 4,
            4 => 8,
            _ => 0,
        }
    }

    fn digits(&self, a: u8) -> [u8; 8] {
        [
            mapped(&DIGIT_1, a),
            mapped(&DIGIT_2, a),
            mapped(&DIGIT_3, a),
            mapped(&DIGIT_4, a),
            0,
            0,
            0,
            0,
        ]
    }
}

// Kind 3: polynomials over the integers modulo 3, modulo z^4 + z + 2, worked on by their coefficients. A code has them as its
// digits in base 3, the constant lowest.
#![tactic(auto, using(crate::proofs::TernaryAnswers::answers))]

ghost use Rattle.std.specs.Prelude.{◌≡◌, ℕ, ◌<◌, ◌≤◌};
ghost use Rattle.fields.specs.Residues.{coefficients, product, power};
ghost use Rattle.fields.specs.Residues as residues;
ghost use Rattle.fields.specs.Shipped.{modulus81, gf81};
ghost use Rattle.fields.specs.Ternary.{trits};
ghost use Rattle.fields.specs.ShippedLaws.{gf81_laws};

use super::trits::Trits;
use super::{Kind, clipped};

#[derive(Clone, Copy, Debug, Default, PartialEq, Eq)]
pub struct Gf81;

// The cube of each element, and the element that has it as its cube.
const CUBES: [u8; 81] = [
    0, 1, 2, 27, 28, 29, 54, 55, 56, 63, 64, 65, 9, 10, 11, 36, 37, 38, 45, 46, 47, 72, 73, 74, 18,
    19, 20, 39, 40, 41, 66, 67, 68, 12, 13, 14, 21, 22, 23, 48, 49, 50, 75, 76, 77, 57, 58, 59, 3,
    4, 5, 30, 31, 32, 78, 79, 80, 24, 25, 26, 51, 52, 53, 33, 34, 35, 60, 61, 62, 6, 7, 8, 15, 16,
    17, 42, 43, 44, 69, 70, 71,
];

const CUBE_ROOTS: [u8; 81] = [
    0, 1, 2, 48, 49, 50, 69, 70, 71, 12, 13, 14, 33, 34, 35, 72, 73, 74, 24, 25, 26, 36, 37, 38,
    57, 58, 59, 3, 4, 5, 51, 52, 53, 63, 64, 65, 15, 16, 17, 27, 28, 29, 75, 76, 77, 18, 19, 20,
    39, 40, 41, 60, 61, 62, 6, 7, 8, 45, 46, 47, 66, 67, 68, 9, 10, 11, 30, 31, 32, 78, 79, 80, 21,
    22, 23, 42, 43, 44, 54, 55, 56,
];

// The coefficients of a, and the code that has them.
fn split(a: u8) -> Trits
    ensures { trits result ≡ coefficients 3 4 a }
{
    let b = a / 3;
    let c = b / 3;
    let d = c / 3;
    Trits {
        c0: a % 3,
        c1: b % 3,
        c2: c % 3,
        c3: d % 3,
    }
}

fn joined(f: Trits) -> u8
    ensures { result ≡ residues.code 3 (trits f) }
{
    ((f.c3 * 3 + f.c2) * 3 + f.c1) * 3 + f.c0
}

fn plus(f: Trits, g: Trits) -> Trits
    ensures { trits result ≡ residues.plus 3 (trits f) (trits g) }
{
    Trits {
        c0: (f.c0 + g.c0) % 3,
        c1: (f.c1 + g.c1) % 3,
        c2: (f.c2 + g.c2) % 3,
        c3: (f.c3 + g.c3) % 3,
    }
}

fn scale(c: u8, f: Trits) -> Trits
    requires { c < 5 }
    ensures { trits result ≡ residues.scale 3 c (trits f) }
{
    Trits {
        c0: (c * f.c0) % 3,
        c1: (c * f.c1) % 3,
        c2: (c * f.c2) % 3,
        c3: (c * f.c3) % 3,
    }
}

// f times g. Before it is reduced there are z^4, z^5 and z^6 as well; z^4 is 2 z + 1.
fn times(f: Trits, g: Trits) -> Trits
    ensures { trits result ≡ residues.times modulus81 (trits f) (trits g) }
{
    let z4 = f.c1 * g.c3 + f.c2 * g.c2 + f.c3 * g.c1;
    let z5 = f.c2 * g.c3 + f.c3 * g.c2;
    let z6 = f.c3 * g.c3;
    Trits {
        c0: (f.c0 * g.c0 + z4) % 3,
        c1: (f.c0 * g.c1 + f.c1 * g.c0 + 2 * z4 + z5) % 3,
        c2: (f.c0 * g.c2 + f.c1 * g.c1 + f.c2 * g.c0 + 2 * z5 + z6) % 3,
        c3: (f.c0 * g.c3 + f.c1 * g.c2 + f.c2 * g.c1 + f.c3 * g.c0 + 2 * z6) % 3,
    }
}

fn multiplied(a: u8, b: u8) -> u8
    ensures { result ≡ product modulus81 a b }
{
    joined(times(split(a), split(b)))
}

fn cube(a: u8) -> u8
    requires { a < 81 }
    ensures value { result ≡ power modulus81 3 a }
    ensures below { result < 81 }
{
    CUBES[a as usize]
}

// The power 27 of a, whose cube is the power 81: a again.
fn cube_root(a: u8) -> u8
    requires { a < 81 }
    ensures { result ≡ power modulus81 27 a }
{
    CUBE_ROOTS[a as usize]
}

// The power 79 of a: a times the squares of its powers 3, 9 and 27.
fn reciprocal(a: u8) -> u8
    requires { a < 81 }
    ensures { result ≡ power modulus81 79 a }
{
    let mut x = a;
    let mut all = a;
    for _ in 0..3u8 {
        x = cube(x);
        all = multiplied(multiplied(all, x), x);
    }
    all
}

impl Kind for Gf81 {
    ghost meaning = { λ _. gf81 };

    ghost lawful = { λ k. gf81_laws };

    fn number(&self) -> u8 {
        3
    }

    fn size(&self) -> u16 {
        81
    }

    fn sum(&self, a: u8, b: u8) -> u8 {
        joined(plus(split(clipped::<81>(a)), split(clipped::<81>(b))))
    }

    fn opposite(&self, a: u8) -> u8 {
        joined(scale(2, split(clipped::<81>(a))))
    }

    fn product(&self, a: u8, b: u8) -> u8 {
        multiplied(clipped::<81>(a), clipped::<81>(b))
    }

    fn inverse(&self, a: u8) -> Option<u8> {
        let x = clipped::<81>(a);
        if x == 0 { None } else { Some(reciprocal(x)) }
    }

    fn twist(&self, a: u8) -> u8 {
        cube(clipped::<81>(a))
    }

    fn untwist(&self, a: u8) -> u8 {
        cube_root(clipped::<81>(a))
    }

    fn width(&self) -> usize {
        4
    }

    fn basis(&self, j: usize) -> u8 {
        match j {
            1 => 1,
            2 => 3,
            3 => 9,
            4 => 27,
            _ => 0,
        }
    }

    fn digits(&self, a: u8) -> [u8; 8] {
        let f = split(clipped::<81>(a));
        [f.c0, f.c1, f.c2, f.c3, 0, 0, 0, 0]
    }
}

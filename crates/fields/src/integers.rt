// Kind 4: the integers modulo 13.
ghost use Rattle.fields.specs.Shipped.{mod13};
ghost use Rattle.fields.specs.Mod13Laws.{mod13_laws};

use super::{Kind, clipped};

#[derive(Clone, Copy, Debug, Default, PartialEq, Eq)]
pub struct Mod13;

const INVERSES: [u8; 13] = [0, 1, 7, 9, 10, 8, 11, 2, 5, 3, 4, 6, 12];

impl Kind for Mod13 {
    ghost meaning = { λ _. mod13 };

    ghost lawful = { λ k. mod13_laws };

    fn number(&self) -> u8 {
        4
    }

    fn size(&self) -> u16 {
        13
    }

    fn sum(&self, a: u8, b: u8) -> u8 {
        (clipped::<13>(a) + clipped::<13>(b)) % 13
    }

    fn opposite(&self, a: u8) -> u8 {
        (13 - clipped::<13>(a)) % 13
    }

    fn product(&self, a: u8, b: u8) -> u8 {
        (clipped::<13>(a) * clipped::<13>(b)) % 13
    }

    fn inverse(&self, a: u8) -> Option<u8> {
        let b = clipped::<13>(a);
        if b == 0 {
            None
        } else {
            Some(INVERSES[b as usize])
        }
    }

    fn twist(&self, a: u8) -> u8 {
        clipped::<13>(a)
    }

    fn untwist(&self, a: u8) -> u8 {
        clipped::<13>(a)
    }

    fn width(&self) -> usize {
        1
    }

    fn basis(&self, j: usize) -> u8 {
        if j == 1 { 1 } else { 0 }
    }

    fn digits(&self, a: u8) -> [u8; 8] {
        [clipped::<13>(a), 0, 0, 0, 0, 0, 0, 0]
    }
}

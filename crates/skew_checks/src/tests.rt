// What the functions give on examples over the integers modulo 13, whose twist does nothing, and so over their mirror.
use fields::{Kind, Mirror, Mod13};
use skew::{
    Point, Polynomial, Site, annihilator, interpolate, left_quotient, pairs, product, value,
};
use std::test::Fail;

const LAWFUL: [Point; 4] = [
    Point {
        parameter: 1,
        locator: 1,
    },
    Point {
        parameter: 2,
        locator: 1,
    },
    Point {
        parameter: 3,
        locator: 1,
    },
    Point {
        parameter: 4,
        locator: 1,
    },
];

// The number of points at which f has another value than the one given.
fn misses<K: Kind>(kind: &K, f: &Polynomial, values: &[u8; 4]) -> usize {
    LAWFUL
        .iter()
        .zip(values)
        .filter(|(p, v)| value(kind, f.as_slice(), p.parameter, p.locator) != **v)
        .count()
}

#[test]
fn the_first_message_has_its_values(rt: HostRuntime) -> Result<(), Fail> {
    let Some(f) = Polynomial::from_slice(&[5, 3]) else {
        return Err(Fail::new("too long"));
    };
    assert_eq!(rt; misses(&Mod13, &f, &[8, 11, 1, 4]), 0);
    assert_eq!(rt; misses(&Mirror { inner: Mod13 }, &f, &[8, 11, 1, 4]), 0);
    Ok(())
}

#[test]
fn values_come_back(rt: HostRuntime) -> Result<(), Fail> {
    let Some(f) = interpolate(&Mod13, &LAWFUL, &[8, 11, 1, 4]) else {
        return Err(Fail::new("not lawful"));
    };
    assert_eq!(rt; f.len(), 4);
    assert_eq!(rt; f.get(0), 5);
    assert_eq!(rt; f.get(1), 3);
    assert_eq!(rt; f.get(2), 0);
    assert_eq!(rt; f.get(3), 0);
    let Some(g) = interpolate(&Mod13, &LAWFUL, &[7, 0, 12, 9]) else {
        return Err(Fail::new("not lawful"));
    };
    assert_eq!(rt; misses(&Mod13, &g, &[7, 0, 12, 9]), 0);
    Ok(())
}

#[test]
fn a_point_that_repeats_wants_the_same_value(rt: HostRuntime) {
    let twice = [LAWFUL[2], LAWFUL[2]];
    assert!(rt; interpolate(&Mod13, &twice, &[3, 3]).is_some());
    assert!(rt; interpolate(&Mod13, &twice, &[3, 4]).is_none());
    assert!(rt; interpolate(&Mod13, &twice, &[3]).is_none());
}

#[test]
fn an_annihilator_vanishes(rt: HostRuntime) -> Result<(), Fail> {
    let Some(m) = annihilator(&Mod13, &LAWFUL) else {
        return Err(Fail::new("too many points"));
    };
    assert_eq!(rt; m.len(), 5);
    assert_eq!(rt; m.get(4), 1);
    assert_eq!(rt; misses(&Mod13, &m, &[0, 0, 0, 0]), 0);
    Ok(())
}

#[test]
fn a_quotient_of_a_product_is_a_factor(rt: HostRuntime) -> Result<(), Fail> {
    let Some(f) = Polynomial::from_slice(&[4, 0, 7]) else {
        return Err(Fail::new("too long"));
    };
    let Some(g) = Polynomial::from_slice(&[2, 11, 5]) else {
        return Err(Fail::new("too long"));
    };
    let Some(p) = product(&Mod13, &f, &g) else {
        return Err(Fail::new("too long"));
    };
    let Some(q) = left_quotient(&Mod13, &p, &f, 3) else {
        return Err(Fail::new("no quotient"));
    };
    assert_eq!(rt; q.get(0), 2);
    assert_eq!(rt; q.get(1), 11);
    assert_eq!(rt; q.get(2), 5);
    assert!(rt; left_quotient(&Mod13, &p, &Polynomial::empty(), 3).is_none());
    Ok(())
}

#[test]
fn pairs_share_out_the_sites(rt: HostRuntime) -> Result<(), Fail> {
    let sites = [
        Site {
            parameter: 1,
            locator: 1,
            second: 8,
        },
        Site {
            parameter: 2,
            locator: 1,
            second: 11,
        },
        Site {
            parameter: 3,
            locator: 1,
            second: 2,
        },
        Site {
            parameter: 4,
            locator: 1,
            second: 4,
        },
    ];
    let Some(s) = pairs(&Mod13, 2, &sites) else {
        return Err(Fail::new("too many sites"));
    };
    assert!(rt; s.a <= 4 && s.b <= 4 - s.a);
    assert!(rt; s.first.q0.get(s.a) != 0);
    assert!(rt; s.second.q1.get(s.b) != 0);
    Ok(())
}

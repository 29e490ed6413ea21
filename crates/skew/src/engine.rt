// Two pairs of polynomials that vanish together at sites, carried from site to site.
ghost use Rattle.std.specs.Prelude.{◌≡◌, ◌<◌, ◌≤◌, List, [], ◌∷◌, ◌++◌, length, MatchOption};
ghost use Rattle.fields.specs.Elements.{Elem, ops};
ghost use Rattle.skew.specs.Annihilators.{Root};
ghost use Rattle.skew.specs.Values.{value_code};
ghost use Rattle.skew.specs.Pairs.{Spot, worth, spot, spots, two, Starts, Held, Turned, Raised, Crossed};

use super::annihilators::root;
use super::pairing::{Pair, Turn, TwoPairs};
use super::points::{MOST, Site};
use super::polynomial::Polynomial;
use super::value;
use fields::Kind;

// The pairs (1, 0) and (0, 1).
fn start() -> TwoPairs
    ensures { Starts result }
{
    let none = Polynomial::empty();
    let mut one = Polynomial::empty();
    one.push(1);
    TwoPairs {
        first: Pair { q0: one, q1: none },
        second: Pair { q0: none, q1: one },
        a: 0,
        b: 0,
    }
}

// The values of f and g at one locator; both take the same powers of it.
fn values<K: Kind>(kind: &K, f: &[u8], g: &[u8], parameter: u8, locator: u8) -> (u8, u8)
    ensures { let m = K.meaning kind.now in (result.0 ≡ value_code m f.now parameter locator) × (result.1 ≡ value_code m g.now parameter locator) }
{
    let n = f.len().min(g.len());
    let mut u = 0;
    let mut v = 0;
    let mut x = locator;
    for (a, b) in f.iter().zip(g) {
        u = kind.sum(u, kind.product(*a, x));
        v = kind.sum(v, kind.product(*b, x));
        x = kind.product(kind.twist(x), parameter);
    }
    let rest = value(kind, &f[n..], parameter, x);
    let others = value(kind, &g[n..], parameter, x);
    (kind.sum(u, rest), kind.sum(v, others))
}

// The values of both pairs at a site.
fn worths<K: Kind>(kind: &K, s: &TwoPairs, site: Site) -> (u8, u8)
    ensures { let m = K.meaning kind.now in (result.0 ≡ (worth (ops m) (two m s.now.first) (spot m site)).code) × (result.1 ≡ (worth (ops m) (two m s.now.second) (spot m site)).code) }
{
    let (a0, b0) = values(
        kind,
        s.first.q0.as_slice(),
        s.second.q0.as_slice(),
        site.parameter,
        site.locator,
    );
    let (a1, b1) = values(
        kind,
        s.first.q1.as_slice(),
        s.second.q1.as_slice(),
        site.parameter,
        site.second,
    );
    (kind.sum(a0, a1), kind.sum(b0, b1))
}

// A c for which x - c takes v to zero at the parameter.
fn factor<K: Kind>(kind: &K, parameter: u8, v: u8) -> u8
    ensures { let m = K.meaning kind.now in Root m parameter v result }
{
    root(kind, parameter, v).unwrap_or(0)
}

// Which pair is the pivot, where x and y are the values of the two at the site.
fn turn(x: u8, y: u8, a: usize, b: usize, k: usize) -> Turn
    requires { a ≤ 24 }
    ensures { Turned result x y a b k }
{
    if x == 0 {
        return if y == 0 { Turn::Stay } else { Turn::Second };
    }
    if y == 0 {
        return Turn::First;
    }
    if a < b.saturating_add(k) {
        Turn::First
    } else {
        Turn::Second
    }
}

// The other pair loses its value y, and the pivot, whose value is x, is raised so that it loses its own.
fn step<K: Kind>(kind: &K, parameter: u8, pivot: &mut Pair, x: u8, other: &mut Pair, y: u8)
    ensures { let m = K.meaning kind.now in (Raised m parameter x pivot.old pivot.new) × (Crossed m x other.old y pivot.old other.new) }
{
    let minus = kind.opposite(y);
    other.q0.cross(kind, x, minus, &pivot.q0);
    other.q1.cross(kind, x, minus, &pivot.q1);
    let c = factor(kind, parameter, x);
    pivot.q0.raise(kind, c);
    pivot.q1.raise(kind, c);
}

// One site more: the pair that is not the pivot loses its value there, and the pivot is raised.
fn advance<K: Kind>(kind: &K, k: usize, site: Site, s: &mut TwoPairs)
    requires { (s.old.a ≤ 24) × (s.old.b ≤ 24) }
    ensures { let m = K.meaning kind.now in ((ps : List (Spot (Elem m))) → length ps < 24 → Held m k ps s.old → Held m k (ps ++ spot m site ∷ []) s.new) }
{
    let (x, y) = worths(kind, s, site);
    match turn(x, y, s.a, s.b, k) {
        Turn::Stay => {}
        Turn::First => {
            step(kind, site.parameter, &mut s.first, x, &mut s.second, y);
            s.a += 1;
        }
        Turn::Second => {
            step(kind, site.parameter, &mut s.second, y, &mut s.first, x);
            s.b += 1;
        }
    }
}

// Both pairs after all sites: each vanishes at every site, q0 at the locator plus q1 at the second value. The degree of
// A's q0 is a, and at least k more than that of its q1; that of B's q1 is b, and that of its q0 is below b + k; and
// a + b is at most the number of sites. No polynomial has more coefficients than there are sites, plus one. Nothing for
// more than 24 sites.
pub fn pairs<K: Kind>(kind: &K, k: usize, sites: &[Site]) -> Option<TwoPairs>
    ensures { let m = K.meaning kind.now in let ps = sites.now in
        MatchOption result (24 < length ps) (λ s. (length ps ≤ 24) × Held m k (spots m ps) s) }
{
    if sites.len() > MOST {
        return None;
    }
    let mut s = start();
    for site in sites {
        advance(kind, k, *site, &mut s);
    }
    Some(s)
}

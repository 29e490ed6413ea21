// Values, products, interpolation, quotients, annihilators and pairs over every kind and its mirror, on numbers from a fixed
// generator. What it prints is held to what an unrelated computation printed (reference/skew.py).
#![tactic(auto)]

ghost use Rattle.std.specs.Prelude.{◌≡◌, ◌*◌, ◌≤◌, length};
ghost use Rattle.skew.specs.Few.{held};

use drills::{Plan, Random, Visit, each_kind};
use fields::Kind;
use shown::{found, line};
use skew::{
    Few, MOST, Pair, Point, Polynomial, Site, annihilator, interpolate, left_quotient, pairs,
    product, value,
};
use std::io;

#[cfg(test)]
mod tests;

// As many blocks, each with the basis for its locators and the next power of the generator for its parameter. The plain draft of
// code_checks counts powers alike, but keeps lengths, parameters and locators in lists of their own.
fn course<K: Kind>(kind: &K, plan: Plan) -> Few<Point, MOST>
    requires { (K.meaning kind.now).width * plan.blocks ≤ 24 }
    ensures { length (held result) ≡ (K.meaning kind.now).width * plan.blocks }
{
    let mut points = Few::empty();
    let mut parameter = 1;
    for _i in 0..plan.blocks {
        for j in 0..kind.width() {
            points.push(Point {
                parameter,
                locator: kind.basis(j + 1),
            });
        }
        parameter = kind.product(parameter, plan.generator);
    }
    points
}

// At how many points the value of the product is the value of f at the value of g.
fn agreeing<K: Kind>(
    kind: &K,
    points: &[Point],
    fg: &Polynomial,
    f: &Polynomial,
    g: &Polynomial,
) -> usize {
    points
        .iter()
        .filter(|p| {
            let inner = value(kind, g.as_slice(), p.parameter, p.locator);
            let outer = value(kind, f.as_slice(), p.parameter, inner);
            outer == value(kind, fg.as_slice(), p.parameter, p.locator)
        })
        .count()
}

fn round<K: Kind>(
    rt: &HostRuntime,
    kind: &K,
    random: &mut Random,
    points: &[Point],
) -> io::Result<()> {
    let n = points.len();
    let f: Polynomial = random.drawn(kind, n / 2 + 1);
    let g: Polynomial = random.drawn(kind, n / 2);
    let mut values = Polynomial::empty();
    for p in points {
        values.push(value(kind, f.as_slice(), p.parameter, p.locator));
    }
    line(rt, "values", values.as_slice())?;
    if let Some(fg) = product(kind, &f, &g) {
        line(rt, "product", fg.as_slice())?;
        println!(rt; "agree {}", agreeing(kind, points, &fg, &f, &g))?;
        let wanted: Polynomial = random.drawn(kind, n);
        let answer = interpolate(kind, points, wanted.as_slice());
        found(rt, "interpolate", answer)?;
        found(rt, "quotient", left_quotient(kind, &fg, &f, n / 2))?;
    }
    let dividend: Polynomial = random.drawn(kind, n);
    found(rt, "quotient", left_quotient(kind, &dividend, &f, n / 2))
}

// Whether q0 at the locator plus q1 at the second value is 0 at every site.
fn vanishes<K: Kind>(kind: &K, q: &Pair, sites: &[Site]) -> bool {
    sites.iter().all(|s| {
        let x = value(kind, q.q0.as_slice(), s.parameter, s.locator);
        let y = value(kind, q.q1.as_slice(), s.parameter, s.second);
        kind.sum(x, y) == 0
    })
}

fn paired<K: Kind>(
    rt: &HostRuntime,
    kind: &K,
    random: &mut Random,
    points: &[Point],
) -> io::Result<()> {
    let n = points.len();
    let mut sites: Few<Site, MOST> = Few::empty();
    for p in points {
        sites.push(Site {
            parameter: p.parameter,
            locator: p.locator,
            second: random.symbol(kind),
        });
    }
    let Some(s) = pairs(kind, n / 2, sites.as_slice()) else {
        return println!(rt; "pairs none");
    };
    let both = vanishes(kind, &s.first, sites.as_slice())
        && vanishes(kind, &s.second, sites.as_slice());
    let leads = s.first.q0.get(s.a) != 0 && s.second.q1.get(s.b) != 0;
    println!(rt;
        "pairs {n} {}",
        if both && leads { "vanish" } else { "fail" }
    )
}

fn report<K: Kind>(rt: &HostRuntime, kind: &K, plan: Plan) -> io::Result<()>
    requires { (K.meaning kind.now).width * plan.blocks ≤ 24 }
{
    let course = course(kind, plan);
    let points = course.as_slice();
    println!(rt; "kind {} points {}", kind.number(), points.len())?;
    let mut random = Random::seeded(kind.number());
    for _i in 0..3usize {
        round(rt, kind, &mut random, points)?;
    }
    found(rt, "annihilator", annihilator(kind, points))?;
    paired(rt, kind, &mut random, points)
}

// Where the kinds are reported.
#[derive(Drop)]
struct Reporter<'a> {
    rt: &'a HostRuntime,
}

impl Visit for Reporter<'_> {
    fn visit<K: Kind, M: Kind>(&self, kind: &K, _mirror: &M, plan: Plan) -> io::Result<()> {
        report(self.rt, kind, plan)
    }
}

fn main(rt: HostRuntime) -> io::Result<()> {
    each_kind(&Reporter { rt: &rt })
}

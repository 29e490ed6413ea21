// A polynomial of degree below 4 over the integers modulo 3, by its coefficients. The struct stands alone in its file, since
// specs name it. Four places with names, and no array: a sum place by place is plainer than one by an index or a closure, which
// would have to say for each place that it is small.
ghost use Rattle.std.specs.Prelude.{◌<◌};

#[derive(Clone, Copy, PartialEq, Eq, Debug)]
pub struct Trits {
    pub c0: u8,
    pub c1: u8,
    pub c2: u8,
    pub c3: u8,
    ghost small: { (c0 < 3) × (c1 < 3) × (c2 < 3) × (c3 < 3) },
}

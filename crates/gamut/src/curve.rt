// The curve between Okhsl's saturation and Oklab's chroma, through 0, `mid` at saturation 0.8 and `max` at 1.
ghost use Rattle.std.specs.Prelude.{◌≡◌};
ghost use Rattle.number.specs.Ops.{basic};
ghost use Rattle.rational.specs.Curve.{knee, stretch, bend as bend_of, unbend as unbend_of, low1, low2, low as low_of};
ghost use Rattle.gamut.specs.Curve.{three, rest, out1, home1, upper2, out_high, home_low, home_high, chroma, saturation};
ghost use Rattle.gamut.specs.Maps.{map_values};

use crate::chroma::ChromaValues;
use number::{Literal, Number, Stage, square};

// The saturation at which the pieces of the curve meet.
fn knee<N: Number>() -> N
    ensures { result ≡ knee (basic N.ops) }
{
    N::literal(Literal::FourFifths)
}

// 1 ÷ knee
fn stretch<N: Number>() -> N
    ensures { result ≡ stretch (basic N.ops) }
{
    N::literal(Literal::FiveQuarters)
}

// The saturations above the knee.
fn rest<N: Number>() -> N
    ensures { result ≡ rest (basic N.ops) }
{
    N::whole(1).sub(knee())
}

// One piece of the curve.
#[derive(Clone, Copy)]
struct Piece<N> {
    j1: N,
    j2: N,
}

impl<N: Number> Piece<N> {
    // The piece below the knee.
    fn low(values: ChromaValues<N>) -> Piece<N>
        ensures j1 { result.j1 ≡ low1 (basic N.ops) (three values) }
        ensures j2 { result.j2 ≡ low2 (basic N.ops) (three values) }
    {
        let j1 = knee::<N>().mul(values.zero);
        Piece {
            j1,
            j2: N::whole(1).sub(j1.div(values.mid)),
        }
    }

    // The piece above the knee with this j1.
    fn high(values: ChromaValues<N>, j1: N) -> Piece<N>
        ensures j1 { result.j1 ≡ j1 }
        ensures j2 { result.j2 ≡ upper2 (basic N.ops) (three values) j1 }
    {
        Piece {
            j1,
            j2: N::whole(1).sub(j1.div(values.max.sub(values.mid))),
        }
    }

    // t j1 ÷ (1 − j2 t)
    fn bend(self, t: N) -> N
        ensures { result ≡ bend_of (basic N.ops) self.j1 self.j2 t }
    {
        t.mul(self.j1).div(N::whole(1).sub(self.j2.mul(t)))
    }

    // x ÷ (j1 + j2 x), the inverse of `bend`
    fn unbend(self, x: N) -> N
        ensures { result ≡ unbend_of (basic N.ops) self.j1 self.j2 x }
    {
        x.div(self.j1.add(self.j2.mul(x)))
    }
}

// The upper j1, in the order of operations of the way to Oklab.
fn out_j1<N: Number>(values: ChromaValues<N>) -> N
    ensures { result ≡ out1 (basic N.ops) (three values) }
{
    rest::<N>()
        .mul(values.mid)
        .mul(values.mid)
        .mul(stretch())
        .mul(stretch())
        .div(values.zero)
}

// The upper j1, in the order of operations of the way back.
fn home_j1<N: Number>(values: ChromaValues<N>) -> N
    ensures { result ≡ home1 (basic N.ops) (three values) }
{
    rest::<N>()
        .mul(square(values.mid.mul(stretch())))
        .div(values.zero)
}

fn low_chroma<N: Number>(values: ChromaValues<N>, s: N) -> N
    ensures { result ≡ low_of (basic N.ops) (three values) s }
{
    Piece::low(values).bend(stretch::<N>().mul(s))
}

fn high_chroma<N: Number>(values: ChromaValues<N>, s: N) -> N
    ensures { result ≡ out_high (basic N.ops) (three values) s }
{
    let piece = Piece::high(values, out_j1(values));
    let t = s.sub(knee()).div(rest());
    values.mid.add(piece.bend(t))
}

/// The chroma of a saturation.
pub fn chroma_of<N: Number>(values: ChromaValues<N>, s: N) -> N
    ensures value { result ≡ chroma N.ops values s }
    ensures meaning { N.means result ≡ chroma N.arith (map_values N.means values) (N.means s) }
{
    let chroma = if s.lt(knee()) {
        low_chroma(values, s)
    } else {
        high_chroma(values, s)
    };
    chroma.mark(Stage::Curve)
}

fn low_saturation<N: Number>(values: ChromaValues<N>, chroma: N) -> N
    ensures { result ≡ home_low (basic N.ops) (three values) chroma }
{
    Piece::low(values).unbend(chroma).mul(knee())
}

fn high_saturation<N: Number>(values: ChromaValues<N>, chroma: N) -> N
    ensures { result ≡ home_high (basic N.ops) (three values) chroma }
{
    let piece = Piece::high(values, home_j1(values));
    let t = piece.unbend(chroma.sub(values.mid));
    knee::<N>().add(rest::<N>().mul(t))
}

/// The saturation of a chroma.
pub fn saturation_of<N: Number>(values: ChromaValues<N>, chroma: N) -> N
    ensures value { result ≡ saturation N.ops values chroma }
    ensures meaning { N.means result ≡ saturation N.arith (map_values N.means values) (N.means chroma) }
{
    let s = if chroma.lt(values.mid) {
        low_saturation(values, chroma)
    } else {
        high_saturation(values, chroma)
    };
    s.mark(Stage::Curve)
}

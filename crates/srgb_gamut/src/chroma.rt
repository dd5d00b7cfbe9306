// The chroma values of a lightness and a hue in sRGB.
ghost use Rattle.std.specs.Prelude.{◌≡◌};
ghost use Rattle.gamut.specs.Maps.{map_direction, map_values};
ghost use Rattle.srgb_gamut.specs.Chroma.{scale as scale_of, mid_chroma, zero_chroma, values_at, chroma_values};

use crate::cusp::LC;
use crate::intersection::{Line, find_gamut_intersection};
use crate::triangle::{ST, Sides};
use gamut::chroma::ChromaValues;
use gamut::direction::Direction;
use number::{Literal, Number, Stage};

// How far the curved side of the gamut stands out over the triangle.
fn scale<N: Number>(max: N, c: Sides<N>) -> N
    ensures { result ≡ scale_of N.ops max c }
{
    max.div(c.lower.min(c.upper))
}

fn mid_chroma<N: Number>(k: N, c: Sides<N>) -> N
    ensures { result ≡ mid_chroma N.ops k c }
{
    N::literal(Literal::NineTenths).mul(k).mul(c.soft_min4())
}

// The same for every hue: the triangle is an average one.
fn zero_chroma<N: Number>(lightness: N) -> N
    ensures { result ≡ zero_chroma N.ops lightness }
{
    let average = ST {
        s: N::literal(Literal::TwoFifths),
        t: N::literal(Literal::FourFifths),
    };
    average.sides(lightness).soft_min2()
}

#[tactic(auto, unfolding(crate::specs::Chroma::values_at))]
fn values_at<N: Number>(lightness: N, h: Direction<N>, cusp: LC<N>, max: N) -> ChromaValues<N>
    ensures { result ≡ values_at N.ops lightness h cusp max }
{
    let k = scale(max, ST::from_cusp(cusp).sides(lightness));
    let mid = mid_chroma(k, ST::mid(h).sides(lightness));
    // Field by field: a public `map` would have to require that its function may be called.
    ChromaValues {
        zero: zero_chroma(lightness).mark(Stage::ChromaValues),
        mid: mid.mark(Stage::ChromaValues),
        max: max.mark(Stage::ChromaValues),
    }
}

/// The chroma values of a lightness and a hue in sRGB.
#[tactic(auto, unfolding(crate::specs::Chroma::chroma_values))]
pub fn from_normalized<N: Number>(lightness: N, h: Direction<N>) -> ChromaValues<N>
    ensures value { result ≡ chroma_values N.ops lightness h }
    ensures meaning { map_values N.means result ≡ chroma_values N.arith (N.means lightness) (map_direction N.means h) }
{
    let cusp = LC::find_cusp(h);
    let max = find_gamut_intersection(h, Line::level(lightness), cusp);
    values_at(lightness, h, cusp, max)
}

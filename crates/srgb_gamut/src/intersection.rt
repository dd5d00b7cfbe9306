// Where a line in the plane of a hue leaves sRGB: L = l0 (1 − t) + t l1, C = t c1.
ghost use Rattle.std.specs.Prelude.{◌≡◌, pos};
ghost use Rattle.srgb_gamut.specs.Chroma.{level as level_of};
ghost use Rattle.srgb_gamut.specs.Jet.{values_of, firsts_of, seconds_of};
ghost use Rattle.srgb_gamut.specs.Intersection.{is_lower, meeting, lower as lower_of, triangle as triangle_of, slopes_along, along as along_of, roots_at, cube_along, red_sum, green_sum, blue_sum, stride_by, stride as stride_of, shortest as shortest_of, step as step_of, upper as upper_of, intersection};

use crate::cusp::LC;
use crate::jet::{Jet, linear};
use crate::lms::{each, slopes_by};
use gamut::direction::Direction;
use gamut::lms::Lms;
use number::{Literal, Number, Stage, cube};

/// A line from (l0, 0) through (l1, c1), lightness first.
#[derive(Clone, Copy)]
pub struct Line<N> {
    pub l1: N,
    pub c1: N,
    pub l0: N,
}

impl<N: Number> Line<N> {
    // The line of one lightness, along which t is the chroma.
    pub(crate) fn level(lightness: N) -> Line<N>
        ensures { result ≡ level_of N.ops lightness }
    {
        Line {
            l1: lightness,
            c1: N::whole(1),
            l0: lightness,
        }
    }

    // Whether the line meets the lower side of the triangle, below the cusp.
    fn is_lower(self, cusp: LC<N>) -> bool
        ensures { result ≡ is_lower N.ops self cusp }
    {
        self.l1
            .sub(self.l0)
            .mul(cusp.chroma)
            .sub(cusp.lightness.sub(self.l0).mul(self.c1))
            .le(N::whole(0))
    }

    // Where it meets a side of the triangle: the lightnesses of l0 and of the cusp are counted from the side's end.
    fn meeting(self, chroma: N, start: N, cusp: N) -> N
        ensures { result ≡ meeting N.ops self chroma start cusp }
    {
        let below = self.c1.mul(cusp).add(chroma.mul(self.l0.sub(self.l1)));
        chroma.mul(start).div(below)
    }

    // Where it meets the lower side, which is straight in sRGB too.
    fn lower(self, cusp: LC<N>) -> N
        ensures { result ≡ lower_of N.ops self cusp }
    {
        self.meeting(cusp.chroma, self.l0, cusp.lightness)
    }

    // Where it meets the upper side of the triangle.
    fn triangle(self, cusp: LC<N>) -> N
        ensures { result ≡ triangle_of N.ops self cusp }
    {
        let one = N::whole(1);
        self.meeting(cusp.chroma, self.l0.sub(one), cusp.lightness.sub(one))
    }
}

fn slopes<N: Number>(h: Direction<N>) -> Lms<N>
    ensures { result ≡ slopes_along N.ops h }
{
    slopes_by(
        N::literal(Literal::MediumA).neg(),
        N::literal(Literal::ShortA).neg(),
        h,
    )
}

// x + y k at each of the slopes k.
fn along<N: Number>(x: N, y: N, k: Lms<N>) -> Lms<N>
    ensures { result ≡ along_of N.ops x y k }
{
    each(k, |k| x.add(y.mul(k)))
}

// The cube roots of LMS at t.
fn roots_at<N: Number>(t: N, line: Line<N>, slopes: Lms<N>) -> Lms<N>
    ensures { result ≡ roots_at N.ops t line slopes }
{
    let lightness = line.l0.mul(N::whole(1).sub(t)).add(t.mul(line.l1));
    let chroma = t.mul(line.c1);
    along(lightness, chroma, slopes)
}

// The cube of x, which grows by d, with its derivatives; the products go in another order than in `cube_of_saturation`.
fn cube_along<N: Number>(x: N, d: N) -> Jet<N>
    ensures { result ≡ cube_along N.ops x d }
{
    Jet {
        value: cube(x),
        first: N::whole(3).mul(d).mul(x).mul(x),
        second: N::whole(6).mul(d).mul(d).mul(x),
    }
}

// Each channel as a sum over LMS: it differs from channel to channel which constant is negated and which product subtracted. The
// conversion to sRGB has the other spelling of green and blue, so no more than red is the same there.
fn red_sum<N: Number>(c: Lms<N>) -> N
    ensures { result ≡ red_sum N.ops c.l c.m c.s }
{
    N::literal(Literal::RedL)
        .mul(c.l)
        .sub(N::literal(Literal::RedM).mul(c.m))
        .add(N::literal(Literal::RedS).mul(c.s))
}

fn green_sum<N: Number>(c: Lms<N>) -> N
    ensures { result ≡ green_sum N.ops c.l c.m c.s }
{
    N::literal(Literal::GreenL)
        .neg()
        .mul(c.l)
        .add(N::literal(Literal::GreenM).mul(c.m))
        .sub(N::literal(Literal::GreenS).mul(c.s))
}

fn blue_sum<N: Number>(c: Lms<N>) -> N
    ensures { result ≡ blue_sum N.ops c.l c.m c.s }
{
    N::literal(Literal::BlueL)
        .neg()
        .mul(c.l)
        .sub(N::literal(Literal::BlueM).mul(c.m))
        .add(N::literal(Literal::BlueS).mul(c.s))
}

// How far a channel, a sum over LMS, is from 1, with its derivatives.
fn channel<N: Number, F: Fn(Lms<N>) -> N>(c: Lms<Jet<N>>, sum: F) -> Jet<N>
    requires { F.IsAlwaysCallable sum }
    ensures value { (x : N) × F.post sum (values_of c) x × (result.value ≡ N.ops.sub x (N.ops.whole (pos 1))) }
    ensures first { F.post sum (firsts_of c) result.first }
    ensures second { F.post sum (seconds_of c) result.second }
{
    let sums = linear(c, sum);
    Jet {
        value: sums.value.sub(N::whole(1)),
        ..sums
    }
}

// A channel that falls along the line never reaches 1: it does not count.
fn stride_by<N: Number>(u: N, value: N) -> N
    ensures { result ≡ stride_by N.ops u value }
{
    if N::whole(0).le(u) {
        value.neg().mul(u)
    } else {
        N::whole(1000000)
    }
}

// One step of Halley's method to where a channel is 1.
#[tactic(auto, unfolding(crate::specs::Intersection::stride))]
fn stride<N: Number>(j: Jet<N>) -> N
    ensures { result ≡ stride_of N.ops j }
{
    stride_by(j.first.div(j.halley_divisor()), j.value)
}

// The step of the channel that is 1 first.
#[tactic(auto, unfolding(crate::specs::Intersection::shortest))]
fn shortest<N: Number>(c: Lms<Jet<N>>) -> N
    ensures { result ≡ shortest_of N.ops c.l c.m c.s }
{
    let red = stride(channel(c, red_sum));
    let green = stride(channel(c, green_sum));
    let blue = stride(channel(c, blue_sum));
    red.min(green.min(blue))
}

// x: the cube roots of LMS, which grow by d.
#[tactic(auto, unfolding(crate::specs::Intersection::step))]
fn step<N: Number>(x: Lms<N>, d: Lms<N>) -> N
    ensures { result ≡ step_of N.ops x d }
{
    shortest(Lms {
        l: cube_along(x.l, d.l),
        m: cube_along(x.m, d.m),
        s: cube_along(x.s, d.s),
    })
}

// From t, where the line meets the triangle, to the curved upper side of sRGB.
#[tactic(auto, unfolding(crate::specs::Intersection::upper))]
fn upper<N: Number>(t: N, slopes: Lms<N>, line: Line<N>) -> N
    ensures { result ≡ upper_of N.ops t slopes line }
{
    let growth = along(line.l1.sub(line.l0), line.c1, slopes);
    t.add(step(roots_at(t, line, slopes), growth))
}

// The t at which a line in the plane of a hue leaves sRGB.
#[tactic(auto, unfolding(crate::specs::Intersection::intersection))]
pub(crate) fn find_gamut_intersection<N: Number>(h: Direction<N>, line: Line<N>, cusp: LC<N>) -> N
    ensures { result ≡ intersection N.ops h line cusp }
{
    let t = if line.is_lower(cusp) {
        line.lower(cusp)
    } else {
        upper(line.triangle(cusp), slopes(h), line)
    };
    t.mark(Stage::Intersection)
}

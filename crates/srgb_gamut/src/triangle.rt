// The triangle that approximates a hue's part of sRGB: lightness from 0 to 1, and chroma up to the cusp.
ghost use Rattle.std.specs.Prelude.{◌≡◌};
ghost use Rattle.srgb_gamut.specs.Triangle.{st_of, cubic, mid_s, mid_t, mid as mid_of, sides as sides_of, parallel, soft_min2, soft_min4};

use crate::cusp::LC;
use gamut::direction::Direction;
use number::{Literal, Number, cube, square};

/// The slopes of a triangle's sides: the largest chroma of a lightness l is the smaller of s l and t (1 − l).
#[derive(Clone, Copy)]
pub struct ST<N> {
    pub s: N,
    pub t: N,
}

/// The chromas of a triangle's lower and upper side at one lightness.
#[derive(Clone, Copy)]
pub struct Sides<N> {
    pub lower: N,
    pub upper: N,
}

// A cubic in a, by Horner's rule.
fn cubic<N: Number>(a: N, k0: N, k1: N, k2: N, k3: N) -> N
    ensures { result ≡ cubic N.ops a k0 k1 k2 k3 }
{
    k0.add(a.mul(k1.add(a.mul(k2.add(a.mul(k3))))))
}

// Which products are subtracted differs in `mid_t`.
fn mid_s<N: Number>(h: Direction<N>) -> N
    ensures { result ≡ mid_s N.ops h }
{
    let k0 = N::literal(Literal::MidS0).add(N::literal(Literal::MidS1).mul(h.b));
    let k1 = N::literal(Literal::MidS2).add(N::literal(Literal::MidS3).mul(h.b));
    let k2 = N::literal(Literal::MidS4).sub(N::literal(Literal::MidS5).mul(h.b));
    let k3 = N::literal(Literal::MidS6)
        .add(N::literal(Literal::MidS7).mul(h.b))
        .add(N::literal(Literal::MidS8).mul(h.a));
    let below = cubic(h.a, k0, k1, k2, k3);
    N::literal(Literal::MidS).add(N::whole(1).div(below))
}

fn mid_t<N: Number>(h: Direction<N>) -> N
    ensures { result ≡ mid_t N.ops h }
{
    let k0 = N::literal(Literal::MidT0).sub(N::literal(Literal::MidT1).mul(h.b));
    let k1 = N::literal(Literal::MidT2).add(N::literal(Literal::MidT3).mul(h.b));
    let k2 = N::literal(Literal::MidT4).add(N::literal(Literal::MidT5).mul(h.b));
    let k3 = N::literal(Literal::MidT6)
        .sub(N::literal(Literal::MidT7).mul(h.b))
        .sub(N::literal(Literal::MidT8).mul(h.a));
    let below = cubic(h.a, k0, k1, k2, k3);
    N::literal(Literal::MidT).add(N::whole(1).div(below))
}

impl<N: Number> ST<N> {
    /// The triangle of a cusp.
    pub fn from_cusp(cusp: LC<N>) -> ST<N>
        ensures { result ≡ st_of N.ops cusp }
    {
        ST {
            s: cusp.chroma.div(cusp.lightness),
            t: cusp.chroma.div(N::whole(1).sub(cusp.lightness)),
        }
    }

    // A smooth approximation of the triangle of a hue's cusp.
    pub(crate) fn mid(h: Direction<N>) -> ST<N>
        ensures { result ≡ mid_of N.ops h }
    {
        ST {
            s: mid_s(h),
            t: mid_t(h),
        }
    }

    pub(crate) fn sides(self, lightness: N) -> Sides<N>
        ensures { result ≡ sides_of N.ops self lightness }
    {
        Sides {
            lower: lightness.mul(self.s),
            upper: N::whole(1).sub(lightness).mul(self.t),
        }
    }
}

impl<N: Number> Sides<N> {
    // A function at each side.
    fn map<F: Fn(N) -> N>(self, f: F) -> Sides<N>
        requires { F.IsAlwaysCallable f }
        ensures lower { F.post f self.lower result.lower }
        ensures upper { F.post f self.upper result.upper }
    {
        Sides {
            lower: f(self.lower),
            upper: f(self.upper),
        }
    }

    // 1 ÷ (1 ÷ lower + 1 ÷ upper)
    fn parallel(self) -> N
        ensures { result ≡ parallel N.ops self }
    {
        let one = N::whole(1);
        one.div(one.div(self.lower).add(one.div(self.upper)))
    }

    // A soft minimum by the second power.
    pub(crate) fn soft_min2(self) -> N
        ensures { result ≡ soft_min2 N.ops self }
    {
        self.map(|x| square(x)).parallel().sqrt()
    }

    // A soft minimum by the fourth power.
    pub(crate) fn soft_min4(self) -> N
        ensures { result ≡ soft_min4 N.ops self }
    {
        self.map(|x| cube(x).mul(x)).parallel().sqrt().sqrt()
    }
}

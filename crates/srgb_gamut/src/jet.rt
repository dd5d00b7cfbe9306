// Values with their derivatives, for Halley's method.
ghost use Rattle.std.specs.Prelude.{◌≡◌};
ghost use Rattle.srgb_gamut.specs.Jet.{values_of, firsts_of, seconds_of, halley_divisor};

use crate::lms::each;
use gamut::lms::Lms;
use number::{Literal, Number, square};

/// A value with its first and second derivative.
#[derive(Clone, Copy)]
pub struct Jet<N> {
    pub value: N,
    pub first: N,
    pub second: N,
}

impl<N: Number> Jet<N> {
    // f'² − f f'' ÷ 2
    pub(crate) fn halley_divisor(self) -> N
        ensures { result ≡ halley_divisor N.ops self }
    {
        square(self.first).sub(N::literal(Literal::Half).mul(self.value).mul(self.second))
    }
}

// A linear function of LMS, and its derivatives.
pub(crate) fn linear<N: Copy, F: Fn(Lms<N>) -> N>(c: Lms<Jet<N>>, f: F) -> Jet<N>
    requires { F.IsAlwaysCallable f }
    ensures value { F.post f (values_of c) result.value }
    ensures first { F.post f (firsts_of c) result.first }
    ensures second { F.post f (seconds_of c) result.second }
{
    Jet {
        value: f(each(c, |j| j.value)),
        first: f(each(c, |j| j.first)),
        second: f(each(c, |j| j.second)),
    }
}

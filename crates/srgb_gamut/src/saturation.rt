// The largest saturation of a hue in sRGB, where one of the channels falls to 0.
ghost use Rattle.std.specs.Prelude.{◌≡◌};
ghost use Rattle.srgb_gamut.specs.Saturation.{falls_first, fit_numbers, fit as fit_of, polynomial as polynomial_of, slopes as slopes_of, cube_of_saturation, weighed as weighed_of, halley as halley_of, stepped as stepped_of, max_saturation};

use crate::jet::{Jet, linear};
use crate::lms::{dot, each, slopes_by};
use gamut::direction::Direction;
use gamut::lms::Lms;
use number::{Literal, Number, Stage, cube, square};

/// The coefficients of a polynomial for the saturation, and the weights of LMS in the channel that falls to 0 first.
#[derive(Clone, Copy)]
pub struct Fit<N> {
    pub k0: N,
    pub k1: N,
    pub k2: N,
    pub k3: N,
    pub k4: N,
    pub weights: Lms<N>,
}

const RED: Fit<Literal> = Fit {
    k0: Literal::Red0,
    k1: Literal::Red1,
    k2: Literal::Red2,
    k3: Literal::Red3,
    k4: Literal::Red4,
    weights: Lms {
        l: Literal::RedL,
        m: Literal::MinusRedM,
        s: Literal::RedS,
    },
};

const GREEN: Fit<Literal> = Fit {
    k0: Literal::Green0,
    k1: Literal::Green1,
    k2: Literal::Green2,
    k3: Literal::Green3,
    k4: Literal::Green4,
    weights: Lms {
        l: Literal::MinusGreenL,
        m: Literal::GreenM,
        s: Literal::MinusGreenS,
    },
};

const BLUE: Fit<Literal> = Fit {
    k0: Literal::Blue0,
    k1: Literal::Blue1,
    k2: Literal::Blue2,
    k3: Literal::Blue3,
    k4: Literal::Blue4,
    weights: Lms {
        l: Literal::MinusBlueL,
        m: Literal::MinusBlueM,
        s: Literal::BlueS,
    },
};

impl Fit<Literal> {
    // The constants as numbers of a kind.
    fn numbers<N: Number>(self) -> Fit<N>
        ensures { result ≡ fit_numbers N.ops self }
    {
        Fit {
            k0: N::literal(self.k0),
            k1: N::literal(self.k1),
            k2: N::literal(self.k2),
            k3: N::literal(self.k3),
            k4: N::literal(self.k4),
            weights: each(self.weights, |l| N::literal(l)),
        }
    }
}

// Whether a channel falls to 0 first, by the constants of its test.
fn falls_first<N: Number>(a: Literal, b: Literal, h: Direction<N>) -> bool
    ensures { result ≡ falls_first N.ops a b h }
{
    let x = N::literal(a).mul(h.a).sub(N::literal(b).mul(h.b));
    N::whole(1).lt(x)
}

// The coefficients of the channel that falls to 0 first.
fn fitted<N: Number>(h: Direction<N>) -> Fit<N>
    ensures { result ≡ fit_of N.ops h }
{
    if falls_first(Literal::RedTestA, Literal::RedTestB, h) {
        RED.numbers()
    } else if falls_first(Literal::GreenTestA, Literal::GreenTestB, h) {
        GREEN.numbers()
    } else {
        BLUE.numbers()
    }
}

fn polynomial<N: Number>(k: Fit<N>, h: Direction<N>) -> N
    ensures { result ≡ polynomial_of N.ops k h }
{
    k.k0.add(k.k1.mul(h.a))
        .add(k.k2.mul(h.b))
        .add(k.k3.mul(square(h.a)))
        .add(k.k4.mul(h.a).mul(h.b))
}

fn slopes<N: Number>(h: Direction<N>) -> Lms<N>
    ensures { result ≡ slopes_of N.ops h }
{
    slopes_by(
        N::literal(Literal::MinusMediumA),
        N::literal(Literal::MinusShortA),
        h,
    )
}

// The cube of 1 + s k, with its derivatives by s.
fn cube_of_saturation<N: Number>(s: N, k: N) -> Jet<N>
    ensures { result ≡ cube_of_saturation N.ops s k }
{
    let x = N::whole(1).add(s.mul(k));
    Jet {
        value: cube(x),
        first: N::whole(3).mul(k).mul(square(x)),
        second: N::whole(6).mul(square(k)).mul(x),
    }
}

fn weighed<N: Number>(w: Lms<N>, c: Lms<Jet<N>>) -> Jet<N>
    ensures { result ≡ weighed_of N.ops w c.l c.m c.s }
{
    linear(c, |x| dot(w, x))
}

// One step of Halley's method from s.
fn halley<N: Number>(s: N, f: Jet<N>) -> N
    ensures { result ≡ halley_of N.ops s f }
{
    s.sub(f.value.mul(f.first).div(f.halley_divisor()))
}

#[tactic(auto, unfolding(crate::specs::Saturation::stepped))]
fn stepped<N: Number>(w: Lms<N>, k: Lms<N>, s: N) -> N
    ensures { result ≡ stepped_of N.ops w k s }
{
    let cubes = each(k, |k| cube_of_saturation(s, k));
    halley(s, weighed(w, cubes))
}

// The largest saturation, chroma ÷ lightness, of a hue in sRGB. It is a part of the cusp.
#[tactic(auto, unfolding(crate::specs::Saturation::max_saturation))]
pub(crate) fn max_saturation<N: Number>(h: Direction<N>) -> N
    ensures { result ≡ max_saturation N.ops h }
{
    let k = fitted(h);
    stepped(k.weights, slopes(h), polynomial(k, h)).mark(Stage::Cusp)
}

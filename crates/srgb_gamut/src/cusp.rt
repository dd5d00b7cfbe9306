// The cusp of a hue: the colour of sRGB with the largest chroma.
ghost use Rattle.std.specs.Prelude.{◌≡◌};
ghost use Rattle.srgb_gamut.specs.Cusp.{at_saturation, largest as largest_of, cusp_at, cusp};

use crate::saturation::max_saturation;
use gamut::direction::Direction;
use gamut::oklab::{Oklab, oklab_to_linear_srgb};
use gamut::rgb::LinSrgb;
use number::{Number, Stage};

/// A lightness and a chroma, for a fixed hue.
#[derive(Clone, Copy)]
pub struct LC<N> {
    pub lightness: N,
    pub chroma: N,
}

fn at_saturation<N: Number>(s: N, h: Direction<N>) -> Oklab<N>
    ensures { result ≡ at_saturation N.ops s h }
{
    Oklab {
        l: N::whole(1),
        a: s.mul(h.a),
        b: s.mul(h.b),
    }
}

fn largest<N: Number>(c: LinSrgb<N>) -> N
    ensures { result ≡ largest_of N.ops c }
{
    c.red.max(c.green).max(c.blue)
}

fn cusp_at<N: Number>(s: N, c: LinSrgb<N>) -> LC<N>
    ensures { result ≡ cusp_at N.ops s c }
{
    let lightness = N::whole(1).div(largest(c)).cbrt();
    LC {
        lightness: lightness.mark(Stage::Cusp),
        chroma: lightness.mul(s).mark(Stage::Cusp),
    }
}

impl<N: Number> LC<N> {
    /// The cusp of a hue.
    #[tactic(auto, unfolding(crate::specs::Cusp::cusp))]
    pub fn find_cusp(h: Direction<N>) -> LC<N>
        ensures { result ≡ cusp N.ops h }
    {
        let s = max_saturation(h);
        cusp_at(s, oklab_to_linear_srgb(at_saturation(s, h)))
    }
}

// Okhsl, and its conversion from and to Oklab over any boundary.
ghost use Rattle.std.specs.Prelude.{◌≡◌};
ghost use Rattle.boundary.specs.Model.{Stays};
ghost use Rattle.boundary.specs.Rule.{meant, untold};
ghost use Rattle.gamut.specs.Maps.{map_oklab};
ghost use Rattle.oklab.specs.Okhsl.{map_okhsl, okhsl_numbers, grey as grey_of, okhsl_in_range, oklab_with, oklab_steps, okhsl_grey, is_grey, okhsl_with, okhsl_steps};
ghost use Rattle.oklab.specs.Steps.{Follows, run};

use crate::checks::{Color, check_direction, check_range, hue_and_shares_in_range, settle_four};
use crate::chromatic::{Chromatic, hue_zero};
use boundary::{Boundary, Query};
use fault::NumberFault;
use gamut::chroma::ChromaValues;
use gamut::curve::{chroma_of, saturation_of};
use gamut::direction::Direction;
use gamut::oklab::Oklab;
use gamut::toe::{toe, toe_inv};
use number::Number;

/// A colour of Okhsl: hue as a direction, saturation and lightness in 0..1.
#[derive(Clone, Copy)]
pub struct Okhsl<N> {
    pub hue: Direction<N>,
    pub saturation: N,
    pub lightness: N,
}

impl<N: Number> Color<N> for Okhsl<N> {
    ghost numbers = { okhsl_numbers };

    ghost in_range = { okhsl_in_range N.ops N.traced };

    // Saturation and lightness are in 0..1.
    fn is_in_range(self) -> bool {
        hue_and_shares_in_range(self.hue, self.saturation, self.lightness)
    }

    fn settled(self) -> Result<Okhsl<N>, NumberFault> {
        let hue = self.hue;
        settle_four(self, hue.a, hue.b, self.saturation, self.lightness)
    }
}

// A grey of Oklab's lightness l.
pub(crate) fn grey<N: Number>(l: N) -> Oklab<N>
    ensures { result ≡ grey_of N.ops N.traced l }
{
    Oklab {
        l,
        a: N::whole(0),
        b: N::whole(0),
    }
}

// The colour of Oklab's lightness l with the three numbers of a boundary.
fn oklab_with<N: Number>(color: Okhsl<N>, l: N, values: ChromaValues<N>) -> Oklab<N>
    ensures { result ≡ oklab_with N.ops N.traced color l values }
{
    let hue = color.hue;
    let chroma = chroma_of(values, color.saturation);
    Oklab {
        l,
        a: chroma.mul(hue.a),
        b: chroma.mul(hue.b),
    }
}

/// Converts Okhsl to Oklab over a boundary. It is refused where a number is out of range or spoiled, the direction is
/// not accepted, the boundary refuses, or a number of the answer is spoiled, in this order; white and black ask no query.
pub fn okhsl_to_oklab<N: Number, B: Boundary<N>>(
    color: Okhsl<N>,
    boundary: &mut B,
) -> Result<Oklab<N>, NumberFault>
    ensures value { Follows N.means (B.meaning boundary.old) (oklab_steps N.ops N.traced color) result }
    ensures meaning { meant (map_oklab N.means) result ≡ run (B.meaning boundary.old) (oklab_steps N.arith untold (map_okhsl N.means color)) }
    ensures stays { Stays B.meaning B.model boundary.old boundary.new }
{
    check_range(color)?;
    let hue = color.hue;
    check_direction(hue)?;
    if color.lightness.eq(N::whole(1)) {
        return grey(N::whole(1)).settled();
    }
    if color.lightness.eq(N::whole(0)) {
        return grey(N::whole(0)).settled();
    }
    let l = toe_inv(color.lightness);
    let values = boundary.query(&Query { lightness: l, hue })?;
    oklab_with(color, l, values).settled()
}

// A grey of Okhsl, at hue 0.
fn okhsl_grey<N: Number>(color: Oklab<N>) -> Okhsl<N>
    ensures { result ≡ okhsl_grey N.ops N.traced color }
{
    Okhsl {
        hue: hue_zero(),
        saturation: N::whole(0),
        lightness: toe(color.l),
    }
}

// Whether chroma or lightness is no valid divisor, or lightness is 1.
fn is_grey<N: Number>(chromatic: Chromatic<N>) -> bool
    ensures { result ≡ is_grey N.ops N.traced chromatic.color chromatic.chroma }
{
    let color = chromatic.color;
    !chromatic.chroma.is_valid_divisor() || color.l.eq(N::whole(1)) || !color.l.is_valid_divisor()
}

// The colour with the three numbers of a boundary.
fn okhsl_with<N: Number>(chromatic: Chromatic<N>, values: ChromaValues<N>) -> Okhsl<N>
    ensures { result ≡ okhsl_with N.ops N.traced chromatic.color chromatic.chroma values }
{
    let color = chromatic.color;
    let lightness = toe(color.l);
    Okhsl {
        hue: chromatic.hue(),
        saturation: saturation_of(values, chromatic.chroma),
        lightness,
    }
}

/// Converts Oklab to Okhsl over a boundary. It is refused where a number is out of range or spoiled, the chroma is
/// spoiled, the boundary refuses, or a number of the answer is spoiled, in this order; greys ask no query.
pub fn oklab_to_okhsl<N: Number, B: Boundary<N>>(
    color: Oklab<N>,
    boundary: &mut B,
) -> Result<Okhsl<N>, NumberFault>
    ensures value { Follows N.means (B.meaning boundary.old) (okhsl_steps N.ops N.traced color) result }
    ensures meaning { meant (map_okhsl N.means) result ≡ run (B.meaning boundary.old) (okhsl_steps N.arith untold (map_oklab N.means color)) }
    ensures stays { Stays B.meaning B.model boundary.old boundary.new }
{
    let chromatic = Chromatic::of(color)?;
    if is_grey(chromatic) {
        return okhsl_grey(color).settled();
    }
    let hue = chromatic.hue();
    let values = boundary.query(&Query {
        lightness: color.l,
        hue,
    })?;
    okhsl_with(chromatic, values).settled()
}

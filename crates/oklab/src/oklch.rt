// Oklch, and its conversion from and to Oklab.
ghost use Rattle.std.specs.Prelude.{◌≡◌};
ghost use Rattle.boundary.specs.Rule.{meant, untold};
ghost use Rattle.gamut.specs.Maps.{map_oklab};
ghost use Rattle.oklab.specs.Oklch.{map_oklch, oklch_numbers, hue_of, oklch_of_oklab, oklch_in_range, oklab_of_oklch};

use crate::checks::{Color, check_direction, check_range, is_in_unit, none_spoiled, settle_four};
use crate::chromatic::{Chromatic, hue_zero};
use fault::NumberFault;
use gamut::direction::Direction;
use gamut::oklab::Oklab;
use number::Number;

/// A colour of Oklch: Oklab's lightness, the chroma, and the hue as a direction.
#[derive(Clone, Copy)]
pub struct Oklch<N> {
    pub l: N,
    pub chroma: N,
    pub hue: Direction<N>,
}

impl<N: Number> Color<N> for Oklch<N> {
    ghost numbers = { oklch_numbers };

    ghost in_range = { oklch_in_range N.ops N.traced };

    // The lightness is in 0..1.
    fn is_in_range(self) -> bool {
        let hue = self.hue;
        is_in_unit(self.l) && none_spoiled(self.chroma, hue.a, hue.b)
    }

    fn settled(self) -> Result<Oklch<N>, NumberFault> {
        let hue = self.hue;
        settle_four(self, self.l, self.chroma, hue.a, hue.b)
    }
}

// The direction of the colour, or hue 0 when the chroma is 0.
fn hue_of<N: Number>(chromatic: Chromatic<N>) -> Direction<N>
    ensures { result ≡ hue_of N.ops N.traced chromatic.color chromatic.chroma }
{
    if chromatic.chroma.eq(N::whole(0)) {
        hue_zero()
    } else {
        chromatic.hue()
    }
}

/// Converts Oklab to Oklch. It is refused where a number is out of range or spoiled, or the chroma or another number of
/// the answer is spoiled, in this order.
pub fn oklab_to_oklch<N: Number>(color: Oklab<N>) -> Result<Oklch<N>, NumberFault>
    ensures value { result ≡ oklch_of_oklab N.ops N.traced color }
    ensures meaning { meant (map_oklch N.means) result ≡ oklch_of_oklab N.arith untold (map_oklab N.means color) }
{
    let chromatic = Chromatic::of(color)?;
    let answer = Oklch {
        l: color.l,
        chroma: chromatic.chroma,
        hue: hue_of(chromatic),
    };
    answer.settled()
}

/// Converts Oklch to Oklab; a chroma below 0 counts as 0. It is refused where a number is out of range or spoiled, the
/// direction is not accepted, or a number of the answer is spoiled, in this order.
pub fn oklch_to_oklab<N: Number>(color: Oklch<N>) -> Result<Oklab<N>, NumberFault>
    ensures value { result ≡ oklab_of_oklch N.ops N.traced color }
    ensures meaning { meant (map_oklab N.means) result ≡ oklab_of_oklch N.arith untold (map_oklch N.means color) }
{
    check_range(color)?;
    let hue = color.hue;
    check_direction(hue)?;
    let chroma = color.chroma.max(N::whole(0));
    let answer = Oklab {
        l: color.l,
        a: hue.a.mul(chroma),
        b: hue.b.mul(chroma),
    };
    answer.settled()
}

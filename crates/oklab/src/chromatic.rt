// A colour of Oklab with its chroma, and hues.
ghost use Rattle.std.specs.Prelude.{◌≡◌};
ghost use Rattle.oklab.specs.Chromatic.{chromatic_of};
ghost use Rattle.oklab.specs.Hues.{hue_zero, direction_with};

use crate::checks::{check_range, unspoiled};
use fault::NumberFault;
use gamut::direction::Direction;
use gamut::oklab::Oklab;
use number::{Number, hypot};

/// A colour of Oklab with its chroma.
#[derive(Clone, Copy)]
pub(crate) struct Chromatic<N> {
    pub(crate) color: Oklab<N>,
    pub(crate) chroma: N,
}

impl<N: Number> Chromatic<N> {
    // The colour with its chroma, refused where a number of it is out of range or spoiled, or the chroma is spoiled.
    pub(crate) fn of(color: Oklab<N>) -> Result<Chromatic<N>, NumberFault>
        ensures { result ≡ chromatic_of N.ops N.traced color }
    {
        check_range(color)?;
        let chroma = hypot(color.a, color.b);
        unspoiled(chroma)?;
        Ok(Chromatic { color, chroma })
    }

    // The direction of the colour.
    pub(crate) fn hue(self) -> Direction<N>
        ensures { result ≡ direction_with N.ops self.color self.chroma }
    {
        let color = self.color;
        Direction {
            a: color.a.div(self.chroma),
            b: color.b.div(self.chroma),
        }
    }
}

pub(crate) fn hue_zero<N: Number>() -> Direction<N>
    ensures { result ≡ hue_zero N.ops }
{
    Direction {
        a: N::whole(1),
        b: N::whole(0),
    }
}

// Okhwb, and its conversion from and to Okhsv.
ghost use Rattle.std.specs.Prelude.{◌≡◌};
ghost use Rattle.boundary.specs.Rule.{meant, untold};
ghost use Rattle.oklab.specs.Okhwb.{map_okhsv, map_okhwb, okhwb_numbers, okhwb_in_range, okhwb_with, okhwb_of_okhsv, okhsv_with, okhsv_of_okhwb};

use crate::checks::{Color, check_direction, check_range, hue_and_shares_in_range, settle_four};
use crate::okhsv::Okhsv;
use fault::NumberFault;
use gamut::direction::Direction;
use number::Number;

/// A colour of Okhwb: hue as a direction, whiteness and blackness in 0..1, together at most 1.
#[derive(Clone, Copy)]
pub struct Okhwb<N> {
    pub hue: Direction<N>,
    pub whiteness: N,
    pub blackness: N,
}

impl<N: Number> Color<N> for Okhwb<N> {
    ghost numbers = { okhwb_numbers };

    ghost in_range = { okhwb_in_range N.ops N.traced };

    // Whiteness and blackness are in 0..1, and their sum is at most 1.
    fn is_in_range(self) -> bool {
        hue_and_shares_in_range(self.hue, self.whiteness, self.blackness)
            && self.whiteness.le(N::whole(1).sub(self.blackness))
    }

    fn settled(self) -> Result<Okhwb<N>, NumberFault> {
        let hue = self.hue;
        settle_four(self, hue.a, hue.b, self.whiteness, self.blackness)
    }
}

fn okhwb_with<N: Number>(color: Okhsv<N>) -> Okhwb<N>
    ensures { result ≡ okhwb_with N.ops N.traced color }
{
    let one = N::whole(1);
    Okhwb {
        hue: color.hue,
        whiteness: one.sub(color.saturation).mul(color.value),
        blackness: one.sub(color.value),
    }
}

/// Converts Okhsv to Okhwb. It is refused where a number is out of range or spoiled, the direction is not accepted, or a
/// number of the answer is spoiled, in this order.
pub fn okhsv_to_okhwb<N: Number>(color: Okhsv<N>) -> Result<Okhwb<N>, NumberFault>
    ensures value { result ≡ okhwb_of_okhsv N.ops N.traced color }
    ensures meaning { meant (map_okhwb N.means) result ≡ okhwb_of_okhsv N.arith untold (map_okhsv N.means color) }
{
    check_range(color)?;
    check_direction(color.hue)?;
    okhwb_with(color).settled()
}

fn okhsv_with<N: Number>(color: Okhwb<N>, value: N) -> Okhsv<N>
    ensures { result ≡ okhsv_with N.ops N.traced color value }
{
    let saturation = if value.is_valid_divisor() {
        N::whole(1).sub(color.whiteness.div(value))
    } else {
        N::whole(0)
    };
    Okhsv {
        hue: color.hue,
        saturation,
        value,
    }
}

/// Converts Okhwb to Okhsv. It is refused where a number is out of range or spoiled, whiteness and blackness sum to more
/// than 1, the direction is not accepted, or a number of the answer is spoiled, in this order.
pub fn okhwb_to_okhsv<N: Number>(color: Okhwb<N>) -> Result<Okhsv<N>, NumberFault>
    ensures value { result ≡ okhsv_of_okhwb N.ops N.traced color }
    ensures meaning { meant (map_okhsv N.means) result ≡ okhsv_of_okhwb N.arith untold (map_okhwb N.means color) }
{
    check_range(color)?;
    check_direction(color.hue)?;
    okhsv_with(color, N::whole(1).sub(color.blackness)).settled()
}

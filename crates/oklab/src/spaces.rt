// Oklab from and to linear sRGB and XYZ, with their refusals.
ghost use Rattle.std.specs.Prelude.{◌≡◌};
ghost use Rattle.boundary.specs.Rule.{meant, untold};
ghost use Rattle.gamut.specs.Maps.{map_oklab, map_rgb, map_xyz};
ghost use Rattle.oklab.specs.Spaces.{rgb_numbers, xyz_numbers, none_spoiled, linear_srgb_of_oklab, oklab_of_linear_srgb, xyz_of_oklab, oklab_of_xyz};

use crate::checks::{Color, check_range, none_spoiled, settle_three};
use fault::NumberFault;
use gamut::oklab::Oklab;
use gamut::rgb::LinSrgb;
use gamut::xyz::Xyz;
use gamut::{oklab, xyz};
use number::Number;

impl<N: Number> Color<N> for LinSrgb<N> {
    ghost numbers = { rgb_numbers };

    ghost in_range = { λ c. none_spoiled N.ops N.traced c.red c.green c.blue };

    fn is_in_range(self) -> bool {
        none_spoiled(self.red, self.green, self.blue)
    }

    fn settled(self) -> Result<LinSrgb<N>, NumberFault> {
        settle_three(self, self.red, self.green, self.blue)
    }
}

impl<N: Number> Color<N> for Xyz<N> {
    ghost numbers = { xyz_numbers };

    ghost in_range = { λ c. none_spoiled N.ops N.traced c.x c.y c.z };

    fn is_in_range(self) -> bool {
        none_spoiled(self.x, self.y, self.z)
    }

    fn settled(self) -> Result<Xyz<N>, NumberFault> {
        settle_three(self, self.x, self.y, self.z)
    }
}

// Each of the four is two lines over what they share: its types are its own, and so are its promises.

/// Converts Oklab to linear sRGB. It is refused where a number is out of range or spoiled, or a number of the answer is
/// spoiled, in this order.
pub fn oklab_to_linear_srgb<N: Number>(color: Oklab<N>) -> Result<LinSrgb<N>, NumberFault>
    ensures value { result ≡ linear_srgb_of_oklab N.ops N.traced color }
    ensures meaning { meant (map_rgb N.means) result ≡ linear_srgb_of_oklab N.arith untold (map_oklab N.means color) }
{
    check_range(color)?;
    oklab::oklab_to_linear_srgb(color).settled()
}

/// Converts linear sRGB to Oklab. It is refused where a number is spoiled, or a number of the answer is, in this order.
pub fn linear_srgb_to_oklab<N: Number>(color: LinSrgb<N>) -> Result<Oklab<N>, NumberFault>
    ensures value { result ≡ oklab_of_linear_srgb N.ops N.traced color }
    ensures meaning { meant (map_oklab N.means) result ≡ oklab_of_linear_srgb N.arith untold (map_rgb N.means color) }
{
    check_range(color)?;
    oklab::linear_srgb_to_oklab(color).settled()
}

/// Converts Oklab to XYZ. It is refused where a number is out of range or spoiled, or a number of the answer is spoiled,
/// in this order.
pub fn oklab_to_xyz<N: Number>(color: Oklab<N>) -> Result<Xyz<N>, NumberFault>
    ensures value { result ≡ xyz_of_oklab N.ops N.traced color }
    ensures meaning { meant (map_xyz N.means) result ≡ xyz_of_oklab N.arith untold (map_oklab N.means color) }
{
    check_range(color)?;
    xyz::oklab_to_xyz(color).settled()
}

/// Converts XYZ to Oklab. It is refused where a number is spoiled, or a number of the answer is, in this order.
pub fn xyz_to_oklab<N: Number>(color: Xyz<N>) -> Result<Oklab<N>, NumberFault>
    ensures value { result ≡ oklab_of_xyz N.ops N.traced color }
    ensures meaning { meant (map_oklab N.means) result ≡ oklab_of_xyz N.arith untold (map_xyz N.means color) }
{
    check_range(color)?;
    oklab::xyz_to_oklab(color).settled()
}

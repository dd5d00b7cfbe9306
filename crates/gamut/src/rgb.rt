// Linear sRGB.
ghost use Rattle.std.specs.Prelude.{◌≡◌};
ghost use Rattle.gamut.specs.Oklab.{rgb_vector};

use crate::matrix::Vec3;

/// A colour in linear sRGB: the amounts of light of the three primaries.
#[derive(Clone, Copy)]
pub struct LinSrgb<N> {
    pub red: N,
    pub green: N,
    pub blue: N,
}

impl<N: Copy> LinSrgb<N> {
    // A function at each number, as in `Lms`.
    pub(crate) fn map<F: Fn(N) -> N>(self, f: F) -> LinSrgb<N>
        requires { F.IsAlwaysCallable f }
        ensures red { F.post f self.red result.red }
        ensures green { F.post f self.green result.green }
        ensures blue { F.post f self.blue result.blue }
    {
        LinSrgb {
            red: f(self.red),
            green: f(self.green),
            blue: f(self.blue),
        }
    }
}

impl<N> From<LinSrgb<N>> for Vec3<N> {
    ghost from_gives = { λ c v. v ≡ rgb_vector c };

    fn from(c: LinSrgb<N>) -> Vec3<N> {
        Vec3 {
            x: c.red,
            y: c.green,
            z: c.blue,
        }
    }
}

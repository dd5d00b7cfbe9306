// The responses of the eye's long, medium and short cones.
ghost use Rattle.std.specs.Prelude.{◌≡◌};
ghost use Rattle.gamut.specs.Oklab.{as_lms};

use crate::matrix::Vec3;

/// The responses of the long, medium and short cones, or their cube roots.
#[derive(Clone, Copy)]
pub struct Lms<N> {
    pub l: N,
    pub m: N,
    pub s: N,
}

impl<N: Copy> Lms<N> {
    // A function at each number. Each record has a `map` of its own: no trait stands for a record over numbers of another type.
    pub(crate) fn map<F: Fn(N) -> N>(self, f: F) -> Lms<N>
        requires { F.IsAlwaysCallable f }
        ensures l { F.post f self.l result.l }
        ensures m { F.post f self.m result.m }
        ensures s { F.post f self.s result.s }
    {
        Lms {
            l: f(self.l),
            m: f(self.m),
            s: f(self.s),
        }
    }
}

impl<N> From<Vec3<N>> for Lms<N> {
    ghost from_gives = { λ v c. c ≡ as_lms v };

    fn from(v: Vec3<N>) -> Lms<N> {
        Lms {
            l: v.x,
            m: v.y,
            s: v.z,
        }
    }
}

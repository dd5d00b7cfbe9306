// Vectors of three numbers and matrices of three rows.
ghost use Rattle.std.specs.Prelude.{◌≡◌};
ghost use Rattle.gamut.specs.Matrix.{dot as dot_of, numbers, times};

use number::{Literal, Number};

/// Three numbers.
#[derive(Clone, Copy)]
pub struct Vec3<N> {
    pub x: N,
    pub y: N,
    pub z: N,
}

/// Three rows.
#[derive(Clone, Copy)]
pub struct Mat3<N> {
    pub first: Vec3<N>,
    pub second: Vec3<N>,
    pub third: Vec3<N>,
}

impl<N: Copy> Vec3<N> {
    // A function at each number, as in `Lms`.
    pub(crate) fn map<M, F: Fn(N) -> M>(self, f: F) -> Vec3<M>
        requires { F.IsAlwaysCallable f }
        ensures x { F.post f self.x result.x }
        ensures y { F.post f self.y result.y }
        ensures z { F.post f self.z result.z }
    {
        Vec3 {
            x: f(self.x),
            y: f(self.y),
            z: f(self.z),
        }
    }
}

impl<N: Number> Vec3<N> {
    fn dot(self, v: Vec3<N>) -> N
        ensures { result ≡ dot_of N.ops self v }
    {
        self.x.mul(v.x).add(self.y.mul(v.y)).add(self.z.mul(v.z))
    }
}

impl Mat3<Literal> {
    // The matrix with each constant as a number of a kind.
    pub(crate) fn numbers<N: Number>(self) -> Mat3<N>
        ensures { result ≡ numbers N.ops self }
    {
        Mat3 {
            first: self.first.map(|l| N::literal(l)),
            second: self.second.map(|l| N::literal(l)),
            third: self.third.map(|l| N::literal(l)),
        }
    }
}

impl<N: Number> Mat3<N> {
    // The matrix times a vector.
    pub(crate) fn times(self, v: Vec3<N>) -> Vec3<N>
        ensures { result ≡ times N.ops self v }
    {
        Vec3 {
            x: self.first.dot(v),
            y: self.second.dot(v),
            z: self.third.dot(v),
        }
    }
}

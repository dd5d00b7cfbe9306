// XYZ at the white point D65, and from Oklab.
ghost use Rattle.std.specs.Prelude.{◌≡◌};
ghost use Rattle.gamut.specs.Maps.{map_oklab, map_xyz};
ghost use Rattle.gamut.specs.Oklab.{to_xyz, xyz_vector, oklab_to_xyz};

use crate::matrix::{Mat3, Vec3};
use crate::oklab::Oklab;
use number::{Literal, Number, Stage, cube};

// LMS to XYZ.
const M1_INV: Mat3<Literal> = Mat3 {
    first: Vec3 {
        x: Literal::XyzXL,
        y: Literal::XyzXM,
        z: Literal::XyzXS,
    },
    second: Vec3 {
        x: Literal::XyzYL,
        y: Literal::XyzYM,
        z: Literal::XyzYS,
    },
    third: Vec3 {
        x: Literal::XyzZL,
        y: Literal::XyzZM,
        z: Literal::XyzZS,
    },
};

// Oklab to the cube roots of LMS.
const M2_INV: Mat3<Literal> = Mat3 {
    first: Vec3 {
        x: Literal::RootLL,
        y: Literal::RootLA,
        z: Literal::RootLB,
    },
    second: Vec3 {
        x: Literal::RootML,
        y: Literal::RootMA,
        z: Literal::RootMB,
    },
    third: Vec3 {
        x: Literal::RootSL,
        y: Literal::RootSA,
        z: Literal::RootSB,
    },
};

/// A colour in XYZ, relative to the white point D65.
#[derive(Clone, Copy)]
pub struct Xyz<N> {
    pub x: N,
    pub y: N,
    pub z: N,
}

impl<N> From<Vec3<N>> for Xyz<N> {
    ghost from_gives = { λ v c. c ≡ to_xyz v };

    fn from(v: Vec3<N>) -> Xyz<N> {
        Xyz {
            x: v.x,
            y: v.y,
            z: v.z,
        }
    }
}

impl<N> From<Xyz<N>> for Vec3<N> {
    ghost from_gives = { λ c v. v ≡ xyz_vector c };

    fn from(c: Xyz<N>) -> Vec3<N> {
        Vec3 {
            x: c.x,
            y: c.y,
            z: c.z,
        }
    }
}

/// The XYZ of a colour in Oklab.
#[tactic(auto, unfolding(crate::specs::Oklab::oklab_to_xyz))]
pub fn oklab_to_xyz<N: Number>(c: Oklab<N>) -> Xyz<N>
    ensures value { result ≡ oklab_to_xyz N.ops c }
    ensures meaning { map_xyz N.means result ≡ oklab_to_xyz N.arith (map_oklab N.means c) }
{
    let roots = M2_INV.numbers().times(Vec3::from(c));
    let lms = roots.map(|x| cube(x));
    let xyz = M1_INV.numbers().times(lms);
    Xyz::from(xyz.map(|x| x.mark(Stage::Matrix)))
}

// Oklab, from linear sRGB and from XYZ, and back to linear sRGB.
ghost use Rattle.std.specs.Prelude.{◌≡◌};
ghost use Rattle.gamut.specs.Maps.{map_oklab, map_rgb, map_xyz};
ghost use Rattle.gamut.specs.Oklab.{roots_of, lms_to_rgb, oklab_to_linear_srgb, rgb_to_lms, roots_to_oklab, linear_srgb_to_oklab, oklab_vector, to_oklab, xyz_to_oklab};

use crate::lms::Lms;
use crate::matrix::{Mat3, Vec3};
use crate::rgb::LinSrgb;
use crate::xyz::Xyz;
use number::{Literal, Number, Stage, cube};

// Linear sRGB to LMS.
const RGB_TO_LMS: Mat3<Literal> = Mat3 {
    first: Vec3 {
        x: Literal::RgbLongR,
        y: Literal::RgbLongG,
        z: Literal::RgbLongB,
    },
    second: Vec3 {
        x: Literal::RgbMediumR,
        y: Literal::RgbMediumG,
        z: Literal::RgbMediumB,
    },
    third: Vec3 {
        x: Literal::RgbShortR,
        y: Literal::RgbShortG,
        z: Literal::RgbShortB,
    },
};

// XYZ to LMS.
const M1: Mat3<Literal> = Mat3 {
    first: Vec3 {
        x: Literal::ConeLX,
        y: Literal::ConeLY,
        z: Literal::ConeLZ,
    },
    second: Vec3 {
        x: Literal::ConeMX,
        y: Literal::ConeMY,
        z: Literal::ConeMZ,
    },
    third: Vec3 {
        x: Literal::ConeSX,
        y: Literal::ConeSY,
        z: Literal::ConeSZ,
    },
};

// The cube roots of LMS to Oklab.
const M2: Mat3<Literal> = Mat3 {
    first: Vec3 {
        x: Literal::LabLL,
        y: Literal::LabLM,
        z: Literal::MinusLabLS,
    },
    second: Vec3 {
        x: Literal::LabAL,
        y: Literal::MinusLabAM,
        z: Literal::LabAS,
    },
    third: Vec3 {
        x: Literal::LabBL,
        y: Literal::LabBM,
        z: Literal::MinusLabBS,
    },
};

/// A colour in Oklab: lightness, green to red, blue to yellow.
#[derive(Clone, Copy)]
pub struct Oklab<N> {
    pub l: N,
    pub a: N,
    pub b: N,
}

impl<N: Copy> Oklab<N> {
    // A function at each number, as in `Lms`.
    fn map<M, F: Fn(N) -> M>(self, f: F) -> Oklab<M>
        requires { F.IsAlwaysCallable f }
        ensures l { F.post f self.l result.l }
        ensures a { F.post f self.a result.a }
        ensures b { F.post f self.b result.b }
    {
        Oklab {
            l: f(self.l),
            a: f(self.a),
            b: f(self.b),
        }
    }
}

impl<N: Number> Oklab<N> {
    /// The colour with each number in its plain form.
    pub fn to_plain(self) -> Oklab<N::Plain>
        ensures { result ≡ map_oklab N.plain self }
    {
        self.map(|x| x.to_plain())
    }

    /// The colour of plain forms.
    pub fn from_plain(p: Oklab<N::Plain>) -> Oklab<N>
        ensures { result ≡ map_oklab N.back p }
    {
        p.map(|x| N::from_plain(x))
    }
}

impl<N> From<Vec3<N>> for Oklab<N> {
    ghost from_gives = { λ v c. c ≡ to_oklab v };

    fn from(v: Vec3<N>) -> Oklab<N> {
        Oklab {
            l: v.x,
            a: v.y,
            b: v.z,
        }
    }
}

impl<N> From<Oklab<N>> for Vec3<N> {
    ghost from_gives = { λ c v. v ≡ oklab_vector c };

    fn from(c: Oklab<N>) -> Vec3<N> {
        Vec3 {
            x: c.l,
            y: c.a,
            z: c.b,
        }
    }
}

// The sums of `roots_of`, `lms_to_rgb` and `roots_to_oklab` are no matrices: to subtract a product is another operation than to add
// that of a negative constant.

// Oklab to the cube roots of LMS.
fn roots_of<N: Number>(c: Oklab<N>) -> Lms<N>
    ensures { result ≡ roots_of N.ops c }
{
    let l = c
        .l
        .add(N::literal(Literal::LongA).mul(c.a))
        .add(N::literal(Literal::LongB).mul(c.b));
    let m = c
        .l
        .sub(N::literal(Literal::MediumA).mul(c.a))
        .sub(N::literal(Literal::MediumB).mul(c.b));
    let s = c
        .l
        .sub(N::literal(Literal::ShortA).mul(c.a))
        .sub(N::literal(Literal::ShortB).mul(c.b));
    Lms { l, m, s }
}

fn lms_to_rgb<N: Number>(c: Lms<N>) -> LinSrgb<N>
    ensures { result ≡ lms_to_rgb N.ops c }
{
    let red = N::literal(Literal::RedL)
        .mul(c.l)
        .sub(N::literal(Literal::RedM).mul(c.m))
        .add(N::literal(Literal::RedS).mul(c.s));
    let green = N::literal(Literal::MinusGreenL)
        .mul(c.l)
        .add(N::literal(Literal::GreenM).mul(c.m))
        .sub(N::literal(Literal::GreenS).mul(c.s));
    let blue = N::literal(Literal::MinusBlueL)
        .mul(c.l)
        .sub(N::literal(Literal::BlueM).mul(c.m))
        .add(N::literal(Literal::BlueS).mul(c.s));
    LinSrgb { red, green, blue }
}

/// The linear sRGB of a colour in Oklab.
#[tactic(auto, unfolding(crate::specs::Oklab::oklab_to_linear_srgb))]
pub fn oklab_to_linear_srgb<N: Number>(c: Oklab<N>) -> LinSrgb<N>
    ensures value { result ≡ oklab_to_linear_srgb N.ops c }
    ensures meaning { map_rgb N.means result ≡ oklab_to_linear_srgb N.arith (map_oklab N.means c) }
{
    lms_to_rgb(roots_of(c).map(|x| cube(x))).map(|x| x.mark(Stage::Matrix))
}

fn rgb_to_lms<N: Number>(c: LinSrgb<N>) -> Lms<N>
    ensures { result ≡ rgb_to_lms N.ops c }
{
    RGB_TO_LMS.numbers().times(Vec3::from(c)).into()
}

fn roots_to_oklab<N: Number>(c: Lms<N>) -> Oklab<N>
    ensures { result ≡ roots_to_oklab N.ops c }
{
    let l = N::literal(Literal::LabLL)
        .mul(c.l)
        .add(N::literal(Literal::LabLM).mul(c.m))
        .sub(N::literal(Literal::LabLS).mul(c.s));
    let a = N::literal(Literal::LabAL)
        .mul(c.l)
        .sub(N::literal(Literal::LabAM).mul(c.m))
        .add(N::literal(Literal::LabAS).mul(c.s));
    let b = N::literal(Literal::LabBL)
        .mul(c.l)
        .add(N::literal(Literal::LabBM).mul(c.m))
        .sub(N::literal(Literal::LabBS).mul(c.s));
    Oklab { l, a, b }
}

/// The Oklab of a colour in linear sRGB.
#[tactic(auto, unfolding(crate::specs::Oklab::linear_srgb_to_oklab))]
pub fn linear_srgb_to_oklab<N: Number>(c: LinSrgb<N>) -> Oklab<N>
    ensures value { result ≡ linear_srgb_to_oklab N.ops c }
    ensures meaning { map_oklab N.means result ≡ linear_srgb_to_oklab N.arith (map_rgb N.means c) }
{
    roots_to_oklab(rgb_to_lms(c).map(|x| x.cbrt())).map(|x| x.mark(Stage::Matrix))
}

/// The Oklab of a colour in XYZ.
#[tactic(auto, unfolding(crate::specs::Oklab::xyz_to_oklab))]
pub fn xyz_to_oklab<N: Number>(c: Xyz<N>) -> Oklab<N>
    ensures value { result ≡ xyz_to_oklab N.ops c }
    ensures meaning { map_oklab N.means result ≡ xyz_to_oklab N.arith (map_xyz N.means c) }
{
    let lms = M1.numbers().times(Vec3::from(c));
    let roots = lms.map(|x| x.cbrt());
    let lab = M2.numbers().times(roots);
    Oklab::from(lab.map(|x| x.mark(Stage::Matrix)))
}

// Okhsv, and its conversion from and to Oklab.
ghost use Rattle.std.specs.Prelude.{◌≡◌};
ghost use Rattle.boundary.specs.Rule.{meant, untold};
ghost use Rattle.gamut.specs.Maps.{map_oklab};
ghost use Rattle.gamut.specs.Toe.{toe_inv};
ghost use Rattle.oklab.specs.Okhsv.{bend as bend_of, brightest as brightest_of, untoed as untoed_of, scale_factor, side_divisor, scaled as scaled_by, oklab_on_triangle, okhsv_coloured, to_side, side_saturation, triangle_of, okhsv_grey, okhsv_with_chroma, oklab_of_saturation, oklab_of_okhsv, okhsv_of_oklab};
ghost use Rattle.oklab.specs.Okhwb.{map_okhsv, okhsv_numbers, okhsv_in_range};
ghost use Rattle.oklab.specs.Polar.{times, side_of};

use crate::checks::{Color, check_direction, check_range, hue_and_shares_in_range, settle_four};
use crate::chromatic::{Chromatic, hue_zero};
use crate::okhsl::grey;
use fault::NumberFault;
use gamut::direction::Direction;
use gamut::oklab::{Oklab, oklab_to_linear_srgb};
use gamut::rgb::LinSrgb;
use gamut::toe::{toe, toe_inv};
use number::{Literal, Number};
use srgb_gamut::{LC, ST};

/// A colour of Okhsv: hue as a direction, saturation and value in 0..1.
#[derive(Clone, Copy)]
pub struct Okhsv<N> {
    pub hue: Direction<N>,
    pub saturation: N,
    pub value: N,
}

impl<N: Number> Color<N> for Okhsv<N> {
    ghost numbers = { okhsv_numbers };

    ghost in_range = { okhsv_in_range N.ops N.traced };

    // Saturation and value are in 0..1.
    fn is_in_range(self) -> bool {
        hue_and_shares_in_range(self.hue, self.saturation, self.value)
    }

    fn settled(self) -> Result<Okhsv<N>, NumberFault> {
        let hue = self.hue;
        settle_four(self, hue.a, hue.b, self.saturation, self.value)
    }
}

/// A colour by its hue, lightness and chroma, in the triangle of its hue.
#[derive(Clone, Copy)]
pub(crate) struct Polar<N> {
    hue: Direction<N>,
    lightness: N,
    chroma: N,
}

// Grouped as palette has it, which is not the largest channel first.
fn brightest<N: Number>(c: LinSrgb<N>) -> N
    ensures { result ≡ brightest_of N.ops c }
{
    c.red.max(c.green).max(c.blue.max(N::whole(0)))
}

impl<N: Number> Polar<N> {
    // The colour moved along the line from black, lightness and chroma alike.
    fn times(self, factor: N) -> Polar<N>
        ensures { result ≡ times N.ops self factor }
    {
        Polar {
            hue: self.hue,
            lightness: factor.mul(self.lightness),
            chroma: factor.mul(self.chroma),
        }
    }

    // The colour with the toe undone.
    fn untoed(self) -> Oklab<N>
        ensures { result ≡ untoed_of N.ops self.hue self.lightness self.chroma (toe_inv N.ops self.lightness) }
    {
        let hue = self.hue;
        let l = toe_inv(self.lightness);
        let chroma = self.chroma.mul(l).div(self.lightness);
        Oklab {
            l,
            a: hue.a.mul(chroma),
            b: hue.b.mul(chroma),
        }
    }

    // What takes a colour on the triangle's upper side to the curved one, where a channel of sRGB is 1.
    fn scale_factor(self) -> N
        ensures { result ≡ scale_factor N.ops self.hue self.lightness self.chroma }
    {
        let rgb = oklab_to_linear_srgb(self.untoed());
        N::whole(1).div(brightest(rgb)).cbrt()
    }

    // The colour with the toe undone, scaled by a factor. It is not built on `untoed`: palette multiplies in another order here,
    // and a float's answer depends on it.
    fn scaled(self, factor: N) -> Oklab<N>
        ensures { result ≡ scaled_by N.ops self.hue self.lightness self.chroma (toe_inv N.ops self.lightness) factor }
    {
        let hue = self.hue;
        let l = toe_inv(self.lightness);
        let chroma = self.chroma.mul(l).div(self.lightness).mul(factor);
        Oklab {
            l: l.mul(factor),
            a: chroma.mul(hue.a),
            b: chroma.mul(hue.b),
        }
    }
}

// 1 − 0.5 ÷ S
fn bend<N: Number>(triangle: ST<N>) -> N
    ensures { result ≡ bend_of N.ops triangle }
{
    N::whole(1).sub(N::literal(Literal::Half).div(triangle.s))
}

fn side_divisor<N: Number>(triangle: ST<N>, s: N) -> N
    ensures { result ≡ side_divisor N.ops triangle s }
{
    N::literal(Literal::Half)
        .add(triangle.t)
        .sub(triangle.t.mul(bend(triangle)).mul(s))
}

// The colour of a saturation on the triangle's upper side.
fn side_of<N: Number>(hue: Direction<N>, triangle: ST<N>, s: N) -> Polar<N>
    ensures { result ≡ side_of N.ops hue triangle s }
{
    let half = N::literal(Literal::Half);
    let divisor = side_divisor(triangle, s);
    Polar {
        hue,
        lightness: N::whole(1).sub(s.mul(half).div(divisor)),
        chroma: s.mul(triangle.t).mul(half).div(divisor),
    }
}

fn oklab_on_triangle<N: Number>(color: Okhsv<N>, triangle: ST<N>) -> Oklab<N>
    ensures { result ≡ oklab_on_triangle N.ops color triangle }
{
    let side = side_of(color.hue, triangle, color.saturation);
    side.times(color.value).scaled(side.scale_factor())
}

fn triangle_of<N: Number>(hue: Direction<N>) -> ST<N>
    ensures { result ≡ triangle_of N.ops hue }
{
    ST::from_cusp(LC::find_cusp(hue))
}

// Black, then greys, then colours.
fn oklab_of_saturation<N: Number>(color: Okhsv<N>) -> Oklab<N>
    ensures { result ≡ oklab_of_saturation N.ops N.traced color }
{
    if color.value.eq(N::whole(0)) {
        grey(N::whole(0))
    } else if color.saturation.eq(N::whole(0)) {
        grey(toe_inv(color.value))
    } else {
        oklab_on_triangle(color, triangle_of(color.hue))
    }
}

/// Converts Okhsv to Oklab. It is refused where a number is out of range or spoiled, the direction is not accepted, or a
/// number of the answer is spoiled, in this order.
pub fn okhsv_to_oklab<N: Number>(color: Okhsv<N>) -> Result<Oklab<N>, NumberFault>
    ensures value { result ≡ oklab_of_okhsv N.ops N.traced color }
    ensures meaning { meant (map_oklab N.means) result ≡ oklab_of_okhsv N.arith untold (map_okhsv N.means color) }
{
    check_range(color)?;
    check_direction(color.hue)?;
    oklab_of_saturation(color).settled()
}

// What takes a colour to the upper side of the triangle.
fn to_side<N: Number>(chromatic: Chromatic<N>, triangle: ST<N>) -> N
    ensures { result ≡ to_side N.ops chromatic.color chromatic.chroma triangle }
{
    let color = chromatic.color;
    triangle
        .t
        .div(chromatic.chroma.add(color.l.mul(triangle.t)))
}

// The saturation of a chroma on the triangle's upper side.
fn side_saturation<N: Number>(triangle: ST<N>, chroma: N) -> N
    ensures { result ≡ side_saturation N.ops triangle chroma }
{
    let half = N::literal(Literal::Half);
    let t = triangle.t;
    let divisor = t.mul(half).add(t.mul(bend(triangle)).mul(chroma));
    half.add(t).mul(chroma).div(divisor)
}

fn okhsv_coloured<N: Number>(chromatic: Chromatic<N>) -> Okhsv<N>
    ensures { result ≡ okhsv_coloured N.ops chromatic.color chromatic.chroma }
{
    let color = chromatic.color;
    let hue = chromatic.hue();
    let triangle = triangle_of(hue);
    let polar = Polar {
        hue,
        lightness: color.l,
        chroma: chromatic.chroma,
    };
    let side = polar.times(to_side(chromatic, triangle));
    Okhsv {
        hue,
        saturation: side_saturation(triangle, side.chroma),
        value: toe(color.l.div(side.scale_factor())).div(side.lightness),
    }
}

// A grey of a value, at hue 0.
fn okhsv_grey<N: Number>(value: N) -> Okhsv<N>
    ensures { result ≡ okhsv_grey N.ops value }
{
    Okhsv {
        hue: hue_zero(),
        saturation: N::whole(0),
        value,
    }
}

// Black, then colours, then greys.
fn okhsv_with_chroma<N: Number>(chromatic: Chromatic<N>) -> Okhsv<N>
    ensures { result ≡ okhsv_with_chroma N.ops chromatic.color chromatic.chroma }
{
    let color = chromatic.color;
    if color.l.eq(N::whole(0)) {
        okhsv_grey(N::whole(0))
    } else if chromatic.chroma.is_valid_divisor() {
        okhsv_coloured(chromatic)
    } else {
        okhsv_grey(toe(color.l))
    }
}

/// Converts Oklab to Okhsv. It is refused where a number is out of range or spoiled, or the chroma or a number of the
/// answer is spoiled, in this order.
pub fn oklab_to_okhsv<N: Number>(color: Oklab<N>) -> Result<Okhsv<N>, NumberFault>
    ensures value { result ≡ okhsv_of_oklab N.ops N.traced color }
    ensures meaning { meant (map_okhsv N.means) result ≡ okhsv_of_oklab N.arith untold (map_oklab N.means color) }
{
    let chromatic = Chromatic::of(color)?;
    okhsv_with_chroma(chromatic).settled()
}

// f32 as a number kind, with correctly rounded roots.
ghost use Rattle.std.specs.Prelude.{◌≡◌, false, None, ◌||◌, if◌then◌else◌, is_nan, refl};
ghost use Rattle.number.specs.Decimals.{decimal};
ghost use Rattle.number.specs.Floats.{nearest_decimal, accepted_direction, float_ops, float_arithmetic};
ghost use Rattle.number.specs.Meaning.{float};
ghost use Rattle.number.specs.SameFloats.{decides_float_meaning};
ghost use Rattle.std.proofs.Common.{inl, rules};

use crate::fault::Stage;
use crate::kind::Number;
use crate::literal::Literal;
use roots::{cbrt_f32, sqrt_f32};
use std::num::{f32_to_bits_with_nan, nearest_i64_to_f32, saturating_f32_to_i32};

// The f32 nearest to each literal's nearest f64, in the order of `Literal`: a `match` would say the same in 116 arms.
const NEAREST: [f32; 116] = [
    0.5,
    0.4,
    0.8,
    1.25,
    0.9,
    0.206,
    0.03,
    -1.8817033,
    0.8093649,
    1.8144411,
    1.1944528,
    1.1908628,
    1.7657673,
    0.5966264,
    0.755152,
    0.5677124,
    0.73956513,
    -0.45954403,
    0.08285427,
    0.1254107,
    0.14503203,
    1.3573365,
    -0.00915799,
    -1.1513021,
    -0.50559604,
    0.00692167,
    4.0767417,
    3.3077116,
    -3.3077116,
    0.23096994,
    1.268438,
    -1.268438,
    2.6097574,
    0.34131938,
    -0.34131938,
    0.0041960864,
    -0.0041960864,
    0.7034186,
    -0.7034186,
    1.7076147,
    0.39633778,
    0.21580376,
    0.105561346,
    -0.105561346,
    0.06385417,
    0.08948418,
    -0.08948418,
    1.2914855,
    0.11516993,
    7.4477897,
    4.1590123,
    -2.1955736,
    1.751984,
    -2.1370494,
    10.02301,
    -4.2489457,
    5.387708,
    4.69891,
    0.11239642,
    1.6132032,
    0.6812438,
    0.40370613,
    0.9014812,
    -0.27087942,
    0.6122399,
    0.00299215,
    0.45399567,
    0.14661872,
    0.41222146,
    0.53633255,
    0.051445995,
    0.2119035,
    0.6806995,
    0.10739696,
    0.08830246,
    0.28171885,
    0.6299787,
    0.21045426,
    0.7936178,
    0.004072047,
    -0.004072047,
    1.9779985,
    2.4285922,
    -2.4285922,
    0.4505937,
    0.025904037,
    0.78277177,
    0.80867577,
    -0.80867577,
    0.8190224,
    0.36190626,
    -0.12887378,
    0.03298367,
    0.92928684,
    0.036144666,
    0.0481772,
    0.26423952,
    0.63354784,
    1.2268798,
    -0.557815,
    0.28139105,
    -0.04057576,
    1.1122868,
    -0.07171106,
    -0.07637295,
    -0.42149332,
    1.5869241,
    1.0,
    0.39633778,
    0.21580376,
    1.0,
    -0.105561346,
    -0.06385417,
    1.0,
    -0.089484185,
    -1.2914855,
];

fn nearest_literal(l: Literal) -> f32
    ensures { result ≡ nearest_decimal (decimal l) }
{
    NEAREST[l as usize]
}

// 1 − 2^-20 and 1 + 2^-20.
const SHORTEST: f32 = 0.99999904632568359375;

const LONGEST: f32 = 1.00000095367431640625;

// a² + b² is within 2^-20 of 1, ends included.
fn accepted_direction(a: f32, b: f32) -> bool
    ensures { result ≡ accepted_direction a b }
{
    // Without a branch, so that a direction that is refused costs no more than one that is accepted.
    let square = a * a + b * b;
    (SHORTEST <= square) & (square <= LONGEST)
}

// The first where it wins or the second is not a number, else the second. The library's `min` and `max` leave open which
// of two zeros they answer.
fn one_of(first: f32, second: f32, first_wins: bool) -> f32
    ensures { result ≡ (if first_wins || is_nan second then first else second) }
{
    if first_wins | second.is_nan() {
        first
    } else {
        second
    }
}

impl Number for f32 {
    type Plain = f32;

    ghost ops = { float_ops };

    ghost means = { float };

    ghost arith = { float_arithmetic };

    ghost exact = { false };

    ghost traced = { λ _. None };

    ghost plain = { λ x. x };

    ghost back = { λ x. x };

    ghost hom = { Prim.search rules };

    ghost exactness = { Prim.search rules };

    ghost meant = { Prim.search rules };

    ghost alike = { λ x y. decides_float_meaning x y };

    ghost again = { Prim.search rules };

    ghost forms = { λ p. inl refl };

    fn add(self, other: f32) -> f32 {
        self + other
    }

    fn sub(self, other: f32) -> f32 {
        self - other
    }

    fn mul(self, other: f32) -> f32 {
        self * other
    }

    fn div(self, other: f32) -> f32 {
        self / other
    }

    fn neg(self) -> f32 {
        -self
    }

    fn min(self, other: f32) -> f32 {
        one_of(self, other, self <= other)
    }

    fn max(self, other: f32) -> f32 {
        one_of(self, other, other <= self)
    }

    fn sqrt(self) -> f32 {
        sqrt_f32(self)
    }

    fn cbrt(self) -> f32 {
        cbrt_f32(self)
    }

    fn whole(n: i64) -> f32 {
        nearest_i64_to_f32(n)
    }

    fn literal(l: Literal) -> f32 {
        nearest_literal(l)
    }

    fn mark(self, _stage: Stage) -> f32 {
        self
    }

    fn lt(self, other: f32) -> bool {
        self < other
    }

    fn le(self, other: f32) -> bool {
        self <= other
    }

    fn eq(self, other: f32) -> bool {
        self == other
    }

    fn same(self, other: f32) -> bool {
        f32_to_bits_with_nan(self) == f32_to_bits_with_nan(other)
    }

    fn is_spoiled(self) -> bool {
        !self.is_finite()
    }

    fn is_valid_divisor(self) -> bool {
        self.is_normal()
    }

    fn is_direction(a: f32, b: f32) -> bool {
        accepted_direction(a, b)
    }

    fn nearest(self) -> Option<i32> {
        if !self.is_finite() {
            return None;
        }
        let n = saturating_f32_to_i32(self.round());
        (-1000000..=1000000).contains(&n).then_some(n)
    }

    fn trace(self) -> Option<(u8, u8)> {
        None
    }

    fn to_plain(self) -> f32 {
        self
    }

    fn from_plain(p: f32) -> f32 {
        p
    }
}

// Square and cube roots: of floats, each the `f32` nearest to the exact root, and of whole numbers.
#![tactic(auto)]

mod guess;
mod pattern;
mod whole;

ghost use Rattle.std.specs.Prelude.{◌≡◌, ◌+◌, ◌*◌, ◌<◌, ◌≤◌, T};
ghost use Rattle.std.specs.Float.{Format, binary32};
ghost use Rattle.std.specs.Float.Ieee.Positive.{positive};
ghost use Rattle.std.specs.Float as Floats;
ghost use Rattle.roots.specs.Roots.{Root, Signed, cbrt, FloatsHeld, NearestUnique, RootsUnique, RootsNearest, SpecialRoots};

use guess::Leading;

// Square and cube roots stay apart: their whole numbers have 64 and 128 bits, and one carries a sign. They share the digits, the
// rounding and the check of a guess; a trait for two degrees would be longer than what is left.

/// The square root: the `f32` nearest to the exact root. Zeros and infinity are their own roots; the
/// root of a value below 0 is not a number.
pub fn sqrt_f32(x: f32) -> f32
    ensures value { result ≡ Floats.sqrt binary32 x }
    ensures nearest { T (positive x) → Root 2 24 binary32 x result }
{
    if x.is_nan() {
        return x.sqrt();
    }
    let b = x.to_bits();
    if b == 0 || 0x7f80_0000 <= b {
        return x.sqrt();
    }
    // A root of 25 digits, whose last one tells how to round: n is even, so no root lies in the middle.
    let (m, j) = pattern::significand(b);
    let n = m << (25 + j % 2);
    let q = whole::square_root(n, Leading { digits: m << 29 }.square_root(j % 2, 24));
    pattern::rounded(q, j / 2 + 51)
}

/// The cube root: the `f32` nearest to the exact root, with the sign of `x`. Zeros, infinities and
/// what is not a number are their own roots.
pub fn cbrt_f32(x: f32) -> f32
    ensures value { result ≡ cbrt binary32 x }
    ensures nearest { Signed (Root 3 24 binary32) x result }
{
    if x.is_nan() {
        return x;
    }
    let b = x.to_bits() % 0x8000_0000;
    if b == 0 || 0x7f80_0000 <= b {
        return x;
    }
    // As in `sqrt_f32`.
    let (m, j) = pattern::significand(b);
    let n = (m as u128) << (49 + j % 3);
    let q = whole::cube_root(n, Leading { digits: m << 29 }.cube_root(j % 3, 24));
    pattern::rounded(q, j / 3 + 76).copysign(x)
}

/// The whole part of the square root.
pub fn whole_sqrt(n: u64) -> u64
    ensures { (result * result ≤ n) × (n < (result + 1) * (result + 1)) }
{
    if n == 0 {
        return 0;
    }
    let (m, e) = pattern::leading(n);
    whole::square_root(n, m.square_root(e % 2, e / 2))
}

/// The whole part of the cube root.
pub fn whole_cbrt(n: u64) -> u64
    ensures { (result * result * result ≤ n) × (n < (result + 1) * (result + 1) * (result + 1)) }
{
    if n == 0 {
        return 0;
    }
    let (m, e) = pattern::leading(n);
    whole::cube_root(n as u128, m.cube_root(e % 3, e / 3))
}

/// What "nearest" means above, for every format: each float is among those that are compared, only
/// one is the nearest, and both roots are it; and what the roots of zeros, infinities, values below 0
/// and what is not a number are.
pub fn roots_are_nearest()
    ensures held { FloatsHeld }
    ensures unique { NearestUnique × RootsUnique }
    ensures nearest { RootsNearest }
    ensures special { (f : Format) → SpecialRoots f }
{}

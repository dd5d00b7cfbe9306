// The leading binary digits of a number and its exponent, and the float of such digits.
ghost use Rattle.std.specs.Prelude.{◌≡◌, ◌+◌, ◌*◌, ◌/◌, ◌^◌, ◌<◌, ◌≤◌, false};
ghost use Rattle.std.specs.Float.{binary32};
ghost use Rattle.std.specs.Float.Ieee.{units};
ghost use Rattle.roots.specs.Digits.{steps};

use crate::guess::Leading;

// The `f32` of pattern b is m * 2^(j - 173), with m of exactly 24 digits.
pub(crate) fn significand(b: u32) -> (u64, u64)
    requires { (0 < b) × (b < 255 * 2 ^ 23) }
    ensures { (2 ^ 23 ≤ result.0) × (result.0 < 2 ^ 24) × (result.1 < 278) × (result.0 * 2 ^ result.1 ≡ steps b * 2 ^ 24) }
{
    if b < 0x80_0000 {
        let shift = b.leading_zeros() - 8;
        ((b << shift) as u64, 24 - shift as u64)
    } else {
        (
            (b % 0x80_0000 + 0x80_0000) as u64,
            (b / 0x80_0000 + 23) as u64,
        )
    }
}

// q / 2, rounded up to a whole number, times 2^(e - 149).
pub(crate) fn rounded(q: u64, e: u64) -> f32
    requires { (2 ^ 24 ≤ q) × (q < 2 ^ 25) × (e < 253) }
    ensures { result ≡ units binary32 false ((q + 1) / 2) e }
{
    f32::from_bits((e * 0x80_0000 + (q + 1) / 2) as u32)
}

// n is m * 2^e, but for what lies below m's 53 digits.
pub(crate) fn leading(n: u64) -> (Leading, u64)
    requires { 0 < n }
    ensures { result.1 < 64 }
{
    let shift = n.leading_zeros();
    let digits = (n << shift) >> 11;
    (Leading { digits }, 63 - shift as u64)
}

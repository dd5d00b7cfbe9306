// The greatest common divisor.
ghost use Rattle.std.specs.Prelude.{◌≡◌, ◌<◌};
ghost use Rattle.rational.specs.Gcd.{gcd};

// The greatest common divisor, by Euclid's steps: a loop with nothing to go over, since each step needs the one before.
pub(crate) fn common_divisor(x: u64, y: u64) -> u64
    ensures value { result ≡ gcd x y }
    ensures above { 0 < y → 0 < result }
{
    let (mut a, mut b) = (x, y);
    while b != 0 {
        (a, b) = (b, a % b);
    }
    a
}

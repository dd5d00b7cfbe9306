// Roots of whole numbers, by degree.
ghost use Rattle.std.specs.Prelude.{◌≡◌, ℕ, ◌<◌};
ghost use Rattle.std.proofs.Common.{lit<};
ghost use Rattle.fraction.specs.Degrees.{IsWholeRoot, exact_root};

use roots::{whole_cbrt, whole_sqrt};

// The degree of a root.
pub(crate) trait Degree {
    ghost DEGREE: { ℕ };

    const DEGREE: u32;

    // The whole part of the root.
    fn whole_root(n: u64) -> u64
        ensures { IsWholeRoot DEGREE result n };

    ghost above: { 0 < DEGREE };
}

pub(crate) struct Square;

pub(crate) struct Cube;

impl Degree for Square {
    ghost DEGREE = { 2 };

    const DEGREE: u32 = 2;

    ghost above = { lit< tt };

    fn whole_root(n: u64) -> u64 {
        whole_sqrt(n)
    }
}

impl Degree for Cube {
    ghost DEGREE = { 3 };

    const DEGREE: u32 = 3;

    ghost above = { lit< tt };

    fn whole_root(n: u64) -> u64 {
        whole_cbrt(n)
    }
}

// The root of a number that has one.
pub(crate) fn exact_root<D: Degree>(n: u64) -> Option<u64>
    ensures { result ≡ exact_root D.DEGREE n }
{
    let root = D::whole_root(n);
    (root.pow(D::DEGREE) == n).then_some(root)
}

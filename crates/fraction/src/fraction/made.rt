// Fractions made from their parts, and their parts.
ghost use Rattle.std.specs.Prelude.{◌≡◌, ◌<◌, ◌≤◌};
ghost use Rattle.rational.specs.Gcd.{gcd};
ghost use Rattle.rational.specs.Rational.{Rational, exact};
ghost use Rattle.rational.specs.Parts.{Is};
ghost use Rattle.number.specs.Meaning.{lost};
ghost use Rattle.fraction.specs.Bound.{R};
ghost use Rattle.fraction.specs.Bounded.{ratio, constant, one};
ghost use Rattle.fraction.specs.Fractions.{meaning_of, with_sign};

use super::Fraction;
use crate::divisor::common_divisor;

// The largest numerator and denominator, 2^62 − 1.
pub(super) const LIMIT: u64 = 0x3fff_ffff_ffff_ffff;

// The lost number.
pub(super) fn lost() -> Fraction
    ensures { meaning_of result ≡ lost }
{
    Fraction {
        numerator: 0,
        denominator: 1,
        lost: true,
    }
}

// The size, or its negative.
pub(super) fn with_sign(negative: bool, size: u64) -> i64
    requires { size ≤ R }
    ensures { result ≡ with_sign negative size }
{
    let n = size as i64;
    if negative { -n } else { n }
}

// A fraction in lowest terms by its sign and the sizes of its two numbers, bound by nothing else.
#[derive(Clone, Copy)]
pub(super) struct LowestTerms {
    pub(super) negative: bool,
    pub(super) size: u64,
    pub(super) denominator: u64,
    ghost positive: { 0 < denominator },
    ghost lowest: { gcd size denominator ≡ 1 },
}

impl LowestTerms {
    // The fraction, lost if it exceeds the bound.
    pub(super) fn bounded(self) -> Fraction
        ensures { (x : Rational) → Is x (with_sign self.negative self.size) self.denominator → meaning_of result ≡ constant x }
    {
        if self.size > LIMIT || self.denominator > LIMIT {
            return lost();
        }
        Fraction {
            numerator: with_sign(self.negative, self.size),
            denominator: self.denominator,
            lost: false,
        }
    }
}

// A whole number, lost if it exceeds the bound.
pub(super) fn of_whole(n: i64) -> Fraction
    ensures { meaning_of result ≡ constant (exact.lit n 0) }
{
    Fraction::new(n, 1)
}

impl Fraction {
    /// The fraction of two numbers, in lowest terms; lost if the denominator is 0 or if it does not fit.
    pub fn new(numerator: i64, denominator: u64) -> Fraction
        ensures { meaning_of result ≡ one lost constant (ratio numerator denominator) }
    {
        if denominator == 0 {
            return lost();
        }
        let size = numerator.unsigned_abs();
        let divisor = common_divisor(size, denominator);
        LowestTerms {
            negative: numerator < 0,
            size: size / divisor,
            denominator: denominator / divisor,
        }
        .bounded()
    }

    /// The numerator; 0 of a lost number.
    pub fn numerator(self) -> i64
        ensures { result ≡ self.numerator }
    {
        self.numerator
    }

    /// The denominator; 1 of a lost number.
    pub fn denominator(self) -> u64
        ensures { result ≡ self.denominator }
    {
        self.denominator
    }

    /// Whether the number is lost.
    pub fn is_lost(self) -> bool
        ensures { result ≡ self.lost }
    {
        self.lost
    }
}

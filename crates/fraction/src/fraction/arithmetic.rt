// Sums, products, quotients and negatives of fractions.
ghost use Rattle.std.specs.Prelude.{◌≡◌, ◌*◌, ◌≤◌, ◌+ℤ◌, if◌then◌else◌, nat_le, unsigned_abs};
ghost use Rattle.rational.specs.Rational.{exact};
ghost use Rattle.number.specs.Meaning.{lost, fraction};
ghost use Rattle.fraction.specs.Bound.{R};
ghost use Rattle.fraction.specs.Bounded.{ratio, sum, product, inverse, difference, quotient, one, two};
ghost use Rattle.fraction.specs.Fractions.{meaning_of};

use super::Fraction;
use super::made::{LIMIT, LowestTerms, lost, with_sign};
use crate::divisor::common_divisor;

// The product, where it is within the bound.
fn bounded_product(a: u64, b: u64) -> Option<u64>
    ensures { result ≡ (if nat_le (a * b) R then Some (a * b) else None) }
{
    a.checked_mul(b).filter(|product| *product <= LIMIT)
}

// (left + right) / denominator, lost if the sum exceeds the bound.
fn sum_over(left: i64, right: i64, denominator: u64) -> Fraction
    requires left_bound { unsigned_abs left ≤ R }
    requires right_bound { unsigned_abs right ≤ R }
    requires lower_bound { denominator ≤ R }
    ensures { meaning_of result ≡ (if nat_le (unsigned_abs (left +ℤ right)) R then ratio (left +ℤ right) denominator else lost) }
{
    let numerator = left + right;
    if numerator.unsigned_abs() > LIMIT {
        return lost();
    }
    Fraction::new(numerator, denominator)
}

impl Fraction {
    pub(super) fn plus(self, other: Fraction) -> Fraction
        ensures { meaning_of result ≡ two lost sum (meaning_of self) (meaning_of other) }
    {
        if self.lost || other.lost {
            return lost();
        }
        let divisor = common_divisor(self.denominator, other.denominator);
        let factor = other.denominator / divisor;
        let (Some(left), Some(right), Some(denominator)) = (
            bounded_product(self.size(), factor),
            bounded_product(other.size(), self.denominator / divisor),
            bounded_product(self.denominator, factor),
        ) else {
            return lost();
        };
        sum_over(
            with_sign(self.is_negative(), left),
            with_sign(other.is_negative(), right),
            denominator,
        )
    }

    // What one numerator and the other denominator share is removed first, so that the product is in lowest terms.
    pub(super) fn times(self, other: Fraction) -> Fraction
        ensures { meaning_of result ≡ two lost product (meaning_of self) (meaning_of other) }
    {
        if self.lost || other.lost {
            return lost();
        }
        let left = self.size();
        let right = other.size();
        let left_divisor = common_divisor(left, other.denominator);
        let right_divisor = common_divisor(right, self.denominator);
        let (Some(size), Some(denominator)) = (
            bounded_product(left / left_divisor, right / right_divisor),
            bounded_product(
                self.denominator / right_divisor,
                other.denominator / left_divisor,
            ),
        ) else {
            return lost();
        };
        LowestTerms {
            negative: self.is_negative() != other.is_negative(),
            size,
            denominator,
        }
        .bounded()
    }

    // 1 / self, lost at 0.
    fn reciprocal(self) -> Fraction
        ensures { meaning_of result ≡ one lost inverse (meaning_of self) }
    {
        if self.lost || self.size() == 0 {
            return lost();
        }
        LowestTerms {
            negative: self.is_negative(),
            size: self.denominator,
            denominator: self.size(),
        }
        .bounded()
    }

    pub(super) fn over(self, other: Fraction) -> Fraction
        ensures { meaning_of result ≡ two lost quotient (meaning_of self) (meaning_of other) }
    {
        self.times(other.reciprocal())
    }

    pub(super) fn minus(self, other: Fraction) -> Fraction
        ensures { meaning_of result ≡ two lost difference (meaning_of self) (meaning_of other) }
    {
        self.plus(other.negated())
    }

    pub(super) fn negated(self) -> Fraction
        ensures { meaning_of result ≡ one lost (λ a. fraction (exact.neg a)) (meaning_of self) }
    {
        Fraction {
            numerator: -self.numerator,
            denominator: self.denominator,
            lost: self.lost,
        }
    }
}

// Order and nearest whole numbers of fractions.
ghost use Rattle.std.specs.Prelude.{◌≡◌, ◌+◌, ◌*◌, ◌/◌, pos, ◌*ℤ◌, if◌then◌else◌, unsigned_abs};
ghost use Rattle.rational.specs.Rational.{exact};
ghost use Rattle.number.specs.Exactness.{nearest_of};
ghost use Rattle.number.specs.Meaning.{lost, fraction};
ghost use Rattle.fraction.specs.Bounded.{two};
ghost use Rattle.fraction.specs.Fractions.{meaning_of, value_of};

use super::Fraction;
use super::made::lost;

impl Fraction {
    // The numerator times the other's denominator.
    fn crossed(self, other: Fraction) -> i128
        ensures { result ≡ self.numerator *ℤ pos other.denominator }
    {
        self.numerator as i128 * other.denominator as i128
    }

    // The order of the two numbers as they stand.
    pub(super) fn is_less(self, other: Fraction) -> bool
        ensures { result ≡ exact.below (value_of self) (value_of other) }
    {
        self.crossed(other) < other.crossed(self)
    }

    // The other where it wins, else self; lost where either is.
    fn one_of(self, other: Fraction, other_wins: bool) -> Fraction
        ensures { meaning_of result ≡ two lost (λ a b. fraction (if other_wins then b else a)) (meaning_of self) (meaning_of other) }
    {
        if self.lost || other.lost {
            return lost();
        }
        if other_wins { other } else { self }
    }

    pub(super) fn lesser(self, other: Fraction) -> Fraction
        ensures { meaning_of result ≡ two lost (λ a b. fraction (if exact.below b a then b else a)) (meaning_of self) (meaning_of other) }
    {
        self.one_of(other, other.is_less(self))
    }

    pub(super) fn greater(self, other: Fraction) -> Fraction
        ensures { meaning_of result ≡ two lost (λ a b. fraction (if exact.below a b then b else a)) (meaning_of self) (meaning_of other) }
    {
        self.one_of(other, self.is_less(other))
    }

    // The size of the nearest whole number, halves away from 0.
    fn nearest_size(self) -> u64
        ensures { result ≡ (2 * unsigned_abs self.numerator + self.denominator) / (2 * self.denominator) }
    {
        (2 * self.size() + self.denominator) / (2 * self.denominator)
    }

    // The nearest whole number of the two numbers as they stand.
    pub(super) fn rounded(self) -> Option<i32>
        ensures { result ≡ nearest_of (value_of self) }
    {
        let k = self.nearest_size();
        if k > 1000000 {
            return None;
        }
        let k = k as i32;
        Some(if self.is_negative() { -k } else { k })
    }
}

// Fractions and their plain forms.
ghost use Rattle.std.specs.Prelude.{◌≡◌};
ghost use Rattle.fraction.specs.Fractions.{proper, plain_form, of_plain};

use super::made::{LIMIT, lost};
use super::{Fraction, PlainFraction};
use crate::divisor::common_divisor;

impl From<Fraction> for PlainFraction {
    ghost from_gives = { λ q p. p ≡ plain_form q };

    fn from(q: Fraction) -> PlainFraction {
        PlainFraction {
            numerator: q.numerator,
            denominator: q.denominator,
            lost: q.lost,
        }
    }
}

/// The fraction of a plain form, lost where the form is no fraction's.
impl From<PlainFraction> for Fraction {
    ghost from_gives = { λ p q. q ≡ of_plain p };

    fn from(p: PlainFraction) -> Fraction {
        if p.lost || !is_proper(p.numerator, p.denominator) {
            return lost();
        }
        Fraction {
            numerator: p.numerator,
            denominator: p.denominator,
            lost: false,
        }
    }
}

// Whether n/d is in lowest terms and within the bound.
fn is_proper(n: i64, d: u64) -> bool
    ensures { result ≡ proper n d }
{
    0 < d && d <= LIMIT && n.unsigned_abs() <= LIMIT && common_divisor(n.unsigned_abs(), d) == 1
}

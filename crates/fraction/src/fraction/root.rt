// Square and cube roots of fractions.
ghost use Rattle.std.specs.Prelude.{◌≡◌};
ghost use Rattle.number.specs.Meaning.{lost};
ghost use Rattle.fraction.specs.Bounded.{root, square_root, one};
ghost use Rattle.fraction.specs.Fractions.{meaning_of};

use super::Fraction;
use super::made::{LowestTerms, lost};
use crate::degree::{Cube, Degree, Square, exact_root};

impl Fraction {
    // The root of the numerator, with its sign, by that of the denominator; lost unless both have one.
    fn root<D: Degree>(self) -> Fraction
        ensures { meaning_of result ≡ one lost (root D.DEGREE) (meaning_of self) }
    {
        if self.lost {
            return lost();
        }
        let (Some(size), Some(denominator)) = (
            exact_root::<D>(self.size()),
            exact_root::<D>(self.denominator),
        ) else {
            return lost();
        };
        LowestTerms {
            negative: self.is_negative(),
            size,
            denominator,
        }
        .bounded()
    }

    pub(super) fn square_root(self) -> Fraction
        ensures { meaning_of result ≡ one lost square_root (meaning_of self) }
    {
        if self.is_negative() {
            lost()
        } else {
            self.root::<Square>()
        }
    }

    pub(super) fn cube_root(self) -> Fraction
        ensures { meaning_of result ≡ one lost (root 3) (meaning_of self) }
    {
        self.root::<Cube>()
    }
}

// Fractions as an exact number kind.
ghost use Rattle.std.specs.Prelude.{true, None};
ghost use Rattle.fraction.specs.Bounded.{arithmetic};
ghost use Rattle.fraction.specs.Fractions.{meaning_of, ops, plain_form, of_plain};
ghost use Rattle.fraction.specs.Kind;
ghost use Rattle.fraction.specs.SameLemmas.{decides_meaning};
ghost use Rattle.fraction.specs.Packs.{plain_back, plain_or_lost};

use super::literal::of_literal;
use super::made::of_whole;
use super::{Fraction, PlainFraction};
use number::{Exact, Literal, Number, Stage};

#[tactic(auto, using(crate::specs::Packs::packed))]
impl Number for Fraction {
    type Plain = PlainFraction;

    ghost ops = { ops };

    ghost means = { meaning_of };

    ghost arith = { arithmetic };

    ghost exact = { true };

    ghost traced = { λ _. None };

    ghost plain = { plain_form };

    ghost back = { of_plain };

    ghost hom = { Kind.hom };

    ghost exactness = { λ _. Kind.exactness };

    ghost meant = { λ _. Kind.meant };

    ghost alike = { λ x y. decides_meaning (meaning_of x) (meaning_of y) };

    ghost again = { plain_back };

    ghost forms = { plain_or_lost };

    fn add(self, other: Fraction) -> Fraction {
        self.plus(other)
    }

    fn sub(self, other: Fraction) -> Fraction {
        self.minus(other)
    }

    fn mul(self, other: Fraction) -> Fraction {
        self.times(other)
    }

    fn div(self, other: Fraction) -> Fraction {
        self.over(other)
    }

    fn neg(self) -> Fraction {
        self.negated()
    }

    fn min(self, other: Fraction) -> Fraction {
        self.lesser(other)
    }

    fn max(self, other: Fraction) -> Fraction {
        self.greater(other)
    }

    fn sqrt(self) -> Fraction {
        self.square_root()
    }

    fn cbrt(self) -> Fraction {
        self.cube_root()
    }

    fn whole(n: i64) -> Fraction {
        of_whole(n)
    }

    fn literal(l: Literal) -> Fraction {
        of_literal(l)
    }

    fn mark(self, _stage: Stage) -> Fraction {
        self
    }

    fn lt(self, other: Fraction) -> bool {
        !self.lost && !other.lost && self.is_less(other)
    }

    fn le(self, other: Fraction) -> bool {
        !self.lost && !other.lost && !other.is_less(self)
    }

    fn eq(self, other: Fraction) -> bool {
        !self.lost && self == other
    }

    fn same(self, other: Fraction) -> bool {
        self == other
    }

    fn is_spoiled(self) -> bool {
        self.lost
    }

    fn is_valid_divisor(self) -> bool {
        !self.lost && self.size() != 0
    }

    #[tactic(auto, using(crate::proofs::Values::whole_one))]
    fn is_direction(a: Fraction, b: Fraction) -> bool {
        a.times(a).plus(b.times(b)).same(of_whole(1))
    }

    fn nearest(self) -> Option<i32> {
        if self.lost { None } else { self.rounded() }
    }

    fn trace(self) -> Option<(u8, u8)> {
        None
    }

    fn to_plain(self) -> PlainFraction {
        PlainFraction::from(self)
    }

    fn from_plain(p: PlainFraction) -> Fraction {
        Fraction::from(p)
    }
}

impl Exact for Fraction {
    fn is_exact() -> bool {
        true
    }
}

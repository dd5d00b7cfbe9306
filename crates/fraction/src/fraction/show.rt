// Fractions as text.
ghost use Rattle.std.specs.Prelude.{Some};
ghost use Rattle.fraction.specs.Shown.{written};

use super::Fraction;
use std::fmt;

/// `n/d`, as `-2/3` or `0/1`; `lost` for a lost number.
impl fmt::Display for Fraction {
    ghost output = { λ q. Some (written q) };

    fn fmt<W: fmt::Write>(&self, f: &mut fmt::Formatter<W>) -> fmt::Result {
        if self.lost {
            return write!(f, "lost");
        }
        let n = self.numerator;
        let d = self.denominator;
        write!(f, "{n}/{d}")
    }
}

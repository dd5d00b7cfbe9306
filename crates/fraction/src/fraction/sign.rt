// A fraction's sign and size.
ghost use Rattle.std.specs.Prelude.{◌≡◌, not, unsigned_abs};
ghost use Rattle.std.specs.Int.Signed.{non_neg};

use super::Fraction;

impl Fraction {
    // The numerator without its sign.
    pub(super) fn size(self) -> u64
        ensures { result ≡ unsigned_abs self.numerator }
    {
        self.numerator.unsigned_abs()
    }

    pub(super) fn is_negative(self) -> bool
        ensures { result ≡ not (non_neg self.numerator) }
    {
        self.numerator < 0
    }
}

// What a number kind is, and an exact one.
ghost use Rattle.std.specs.Prelude.{◌≡◌, ℕ, Bool, true, ◌⊎◌, Decides, Option};
ghost use Rattle.number.specs.Decimals.{decimal};
ghost use Rattle.number.specs.Exactness.{Exactness};
ghost use Rattle.number.specs.Meaning.{Meaning, LostOrFraction};
ghost use Rattle.number.specs.Ops.{Ops, Hom};

use crate::fault::Stage;
use crate::literal::Literal;

/// A number kind: its operations, as functions on its values (`ops`) and on what they mean (`arith`).
///
/// What a result means, loss included, depends only on what the operands mean: `means` carries `ops` to `arith`.
pub trait Number: Copy {
    /// The form in which a number lies in a row, bound by no rule.
    type Plain: Copy;

    ghost ops: { Ops Self };

    ghost means: { Self → Meaning };

    ghost arith: { Ops Meaning };

    // the mark of an exact kind
    ghost exact: { Bool };

    // cause and stage of the first fault, where the kind keeps one
    ghost traced: { Self → Option (ℕ × ℕ) };

    ghost plain: { Self → Self.Plain };

    ghost back: { Self.Plain → Self };

    fn add(self, other: Self) -> Self
        ensures { result ≡ ops.add self other };

    fn sub(self, other: Self) -> Self
        ensures { result ≡ ops.sub self other };

    fn mul(self, other: Self) -> Self
        ensures { result ≡ ops.mul self other };

    fn div(self, other: Self) -> Self
        ensures { result ≡ ops.div self other };

    fn neg(self) -> Self
        ensures { result ≡ ops.neg self };

    fn min(self, other: Self) -> Self
        ensures { result ≡ ops.min self other };

    fn max(self, other: Self) -> Self
        ensures { result ≡ ops.max self other };

    fn sqrt(self) -> Self
        ensures { result ≡ ops.sqrt self };

    fn cbrt(self) -> Self
        ensures { result ≡ ops.cbrt self };

    /// A whole number, as a number of the kind.
    fn whole(n: i64) -> Self
        ensures { result ≡ ops.whole n };

    /// A decimal constant, as a number of the kind.
    fn literal(l: Literal) -> Self
        ensures { result ≡ ops.literal (decimal l) };

    /// Marks the number as the answer of a stage: a fault that has no stage gets this one.
    fn mark(self, stage: Stage) -> Self
        ensures { result ≡ ops.mark stage self };

    fn lt(self, other: Self) -> bool
        ensures { result ≡ ops.lt self other };

    fn le(self, other: Self) -> bool
        ensures { result ≡ ops.le self other };

    fn eq(self, other: Self) -> bool
        ensures { result ≡ ops.eq self other };

    /// Whether the two numbers mean the same.
    fn same(self, other: Self) -> bool
        ensures { result ≡ ops.same self other };

    fn is_spoiled(self) -> bool
        ensures { result ≡ ops.spoiled self };

    fn is_valid_divisor(self) -> bool
        ensures { result ≡ ops.divisor self };

    /// Whether (a, b) is accepted as a direction, a² + b² = 1.
    fn is_direction(a: Self, b: Self) -> bool
        ensures { result ≡ ops.direction a b };

    /// The nearest whole number, halves away from 0; none if spoiled or above 1,000,000 in size.
    fn nearest(self) -> Option<i32>
        ensures { result ≡ ops.nearest self };

    /// Cause and stage of the first fault, where the kind keeps one.
    // The form is fixed: two small numbers.
    fn trace(self) -> Option<(u8, u8)>
        ensures { result ≡ traced self };

    fn to_plain(self) -> Self::Plain
        ensures { result ≡ plain self };

    /// The number of a plain form, or a spoiled one where the form is no number's.
    fn from_plain(p: Self::Plain) -> Self
        ensures { result ≡ back p };

    ghost hom: { Hom means ops arith };

    ghost exactness: { exact ≡ true → Exactness arith };

    ghost meant: { exact ≡ true → (x : Self) → LostOrFraction (means x) };

    ghost alike: { (x y : Self) → Decides (ops.same x y) (means x ≡ means y) };

    ghost again: { (x : Self) → back (plain x) ≡ x };

    // a form that is no number's comes back as a spoiled number
    ghost forms: { (p : Self.Plain) → (plain (back p) ≡ p) ⊎ (ops.spoiled (back p) ≡ true) };
}

/// A kind that promises to be exact: a result that is not lost is the exact fraction.
pub trait Exact: Number {
    fn is_exact() -> bool
        ensures { (result ≡ true) × (Self.Number.exact ≡ true) };
}

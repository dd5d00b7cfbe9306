// A fraction in lowest terms, or a lost one, which is written 0/1.
ghost use Rattle.std.specs.Prelude.{◌≡◌, ◌<◌, ◌≤◌, true, pos, unsigned_abs};
ghost use Rattle.rational.specs.Gcd.{gcd};
ghost use Rattle.fraction.specs.Bound.{R};

mod arithmetic;
mod literal;
mod made;
mod operations;
mod order;
mod plain;
mod root;
mod show;
mod sign;

/// A fraction in lowest terms whose numerator, without its sign, and denominator are at most 2^62 − 1; or a lost one. By `==`, as by
/// `same`, a lost one is equal to a lost one; by `Number::eq` it equals nothing.
// The form is fixed: numerator, denominator and a flag under one invariant.
#[derive(Clone, Copy, PartialEq, Eq)]
pub struct Fraction {
    numerator: i64,
    denominator: u64,
    lost: bool,
    ghost positive: { 0 < denominator },
    ghost lower: { denominator ≤ R },
    ghost upper: { unsigned_abs numerator ≤ R },
    ghost lowest: { gcd (unsigned_abs numerator) denominator ≡ 1 },
    ghost empty: { lost ≡ true → (numerator ≡ pos 0) × (denominator ≡ 1) },
}

/// A fraction as it lies in a row, bound by no rule.
// The form is fixed: three fields that lie in a row as they stand.
#[derive(Clone, Copy)]
pub struct PlainFraction {
    pub numerator: i64,
    pub denominator: u64,
    pub lost: bool,
}

// Fractions of machine numbers as an exact number kind.
#![tactic(auto)]

mod degree;
mod divisor;
mod fraction;

pub use fraction::{Fraction, PlainFraction};

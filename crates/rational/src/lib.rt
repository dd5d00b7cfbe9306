//! Exact fractions of whole numbers of any size, in lowest terms, as definitions and theorems. There is nothing to run: each function here
//! bears a theorem in its contract, so that its proof is asked for. The definitions and the statements are in specs/.
#![tactic(auto)]

ghost use Rattle.rational.specs.Algebra.{OrderedField};
ghost use Rattle.rational.specs.Gcd.{GcdIsGreatest};
ghost use Rattle.rational.specs.Rational.{exact};
ghost use Rattle.rational.specs.Polynomial.{NormalFormDecides};
ghost use Rattle.rational.specs.Parts.{PartsLaws};
ghost use Rattle.rational.specs.Nearest.{NearestIsNearest};
ghost use Rattle.rational.specs.Toe.{ToeBack, ToeInside};
ghost use Rattle.rational.specs.Curve.{CurveHolds};
ghost use Rattle.rational.specs.Cases.{Cases};

/// The greatest common divisor of two numbers divides both, and every number that divides both divides it.
pub fn gcd_is_greatest()
    ensures { GcdIsGreatest }
{}

/// The exact fractions are an ordered field.
pub fn rationals_are_a_field()
    ensures { OrderedField exact }
{}

/// Two expressions with one normal form have one value, whatever fractions their variables stand for.
pub fn normal_form_decides()
    ensures { NormalFormDecides }
{}

/// Each operation by the numerators and denominators alone: sums over the least common denominator, products cancelled crosswise,
/// roots of the two numbers, the order of the cross products.
pub fn parts_hold()
    ensures { PartsLaws }
{}

/// The nearest whole number is at most a half away from the fraction, and at a half is the farther one from 0; it is the only such number, and
/// no whole number is nearer.
pub fn nearest_is_nearest()
    ensures { NearestIsNearest }
{}

/// The toe of the inverse toe of a fraction not below 0 is that fraction: the root in it is a fraction, and the toe with it comes back.
pub fn toe_returns()
    ensures { ToeBack }
{}

/// The inverse toe of a fraction strictly between 0 and 1 lies strictly between 0 and 1.
pub fn toe_stays_inside()
    ensures { ToeInside }
{}

/// The curve from saturation to chroma is 0 at 0, mid at 0.8 and max at 1, rises strictly, has no kink at 0.8, and its way back is exact.
pub fn curve_holds()
    ensures { CurveHolds }
{}

/// Cases computed out: the inverse toe of 1/2 is 36359/63918 and the toe of that 1/2; 5/2 rounds to 3; a curve there and back; and others.
pub fn cases_hold()
    ensures { Cases }
{}

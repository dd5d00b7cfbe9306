// What is proved of the curve from saturation to chroma.
ghost use Rattle.std.specs.Prelude.{◌≡◌, true};
ghost use Rattle.rational.specs.Curve.{CurveHolds};
ghost use Rattle.strip.specs.Curve.{CurveMeant};

use number::Exact;

/// For the three numbers of an accepted query the exact curve is 0 at 0, mid at 0.8 and max at 1, rises strictly between 0
/// and 1, and has no kink at 0.8. Over every exact kind the chroma of an answered query, where not lost, is that curve's.
pub fn curve_rises<N: Exact>() -> bool
    ensures answer { result ≡ true }
    ensures curve { CurveHolds }
    ensures meaning { CurveMeant N.Number.arith }
{
    N::is_exact()
}

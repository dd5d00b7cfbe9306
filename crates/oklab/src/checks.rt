// The checks of a conversion: the colour's ranges and its direction before it, and spoiled numbers in its answer.
ghost use Rattle.std.specs.Prelude.{◌≡◌, Bool, List, [], ◌∷◌};
ghost use Rattle.oklab.specs.Checks.{in_unit, hue_and_shares_in_range, settled, refused_unless};
ghost use Rattle.oklab.specs.Okhsl.{oklab_numbers, oklab_in_range};
ghost use Rattle.oklab.specs.Spaces.{none_spoiled};

use fault::NumberFault;
use gamut::direction::Direction;
use gamut::oklab::Oklab;
use number::Number;

/// A colour of one of the spaces, checked before a conversion and as its answer.
pub(crate) trait Color<N: Number>: Copy {
    // in the order in which an answer's are checked
    ghost numbers: { Self → List N };

    ghost in_range: { Self → Bool };

    /// Whether each number is in its range, and none is spoiled.
    fn is_in_range(self) -> bool
        ensures { result ≡ in_range self };

    /// The colour, refused where one of its numbers is spoiled.
    fn settled(self) -> Result<Self, NumberFault>
        ensures { result ≡ settled N.ops N.traced (numbers self) self };
}

// Whether a number is in 0..1, and not spoiled.
pub(crate) fn is_in_unit<N: Number>(x: N) -> bool
    ensures { result ≡ in_unit N.ops x }
{
    !x.is_spoiled() && N::whole(0).le(x) && x.le(N::whole(1))
}

// Whether a hue is not spoiled and two numbers beside it are in 0..1.
pub(crate) fn hue_and_shares_in_range<N: Number>(hue: Direction<N>, x: N, y: N) -> bool
    ensures { result ≡ hue_and_shares_in_range N.ops hue x y }
{
    !hue.a.is_spoiled() && !hue.b.is_spoiled() && is_in_unit(x) && is_in_unit(y)
}

pub(crate) fn none_spoiled<N: Number>(x: N, y: N, z: N) -> bool
    ensures { result ≡ none_spoiled N.ops N.traced x y z }
{
    !x.is_spoiled() && !y.is_spoiled() && !z.is_spoiled()
}

// Refuses with a fault, unless a test holds.
pub(crate) fn refuse_unless(holds: bool, fault: NumberFault) -> Result<(), NumberFault>
    ensures { result ≡ refused_unless holds fault }
{
    if holds { Ok(()) } else { Err(fault) }
}

// Refuses a colour with a number out of range or spoiled.
pub(crate) fn check_range<N: Number, C: Color<N>>(color: C) -> Result<(), NumberFault>
    ensures { result ≡ refused_unless (C.in_range color) NumberFault.Range }
{
    refuse_unless(color.is_in_range(), NumberFault::Range)
}

// Refuses a direction that is not accepted.
pub(crate) fn check_direction<N: Number>(hue: Direction<N>) -> Result<(), NumberFault>
    ensures { result ≡ refused_unless (N.ops.direction hue.a hue.b) NumberFault.Direction }
{
    refuse_unless(N::is_direction(hue.a, hue.b), NumberFault::Direction)
}

/// Refuses a spoiled number of an answer, with its trace.
pub fn unspoiled<N: Number>(x: N) -> Result<(), NumberFault>
    ensures { result ≡ settled N.ops N.traced (x ∷ []) tt }
{
    if x.is_spoiled() {
        return Err(NumberFault::Lost(x.trace()));
    }
    Ok(())
}

// An answer of three numbers, refused where one is spoiled. An array of any length would ask callers for a bound on the
// size of N in memory, which a public function must not.
pub(crate) fn settle_three<N: Number, C: Copy>(
    answer: C,
    x: N,
    y: N,
    z: N,
) -> Result<C, NumberFault>
    ensures { result ≡ settled N.ops N.traced (x ∷ y ∷ z ∷ []) answer }
{
    unspoiled(x)?;
    unspoiled(y)?;
    unspoiled(z)?;
    Ok(answer)
}

// An answer of four numbers, refused where one is spoiled.
pub(crate) fn settle_four<N: Number, C: Copy>(
    answer: C,
    w: N,
    x: N,
    y: N,
    z: N,
) -> Result<C, NumberFault>
    ensures { result ≡ settled N.ops N.traced (w ∷ x ∷ y ∷ z ∷ []) answer }
{
    unspoiled(w)?;
    settle_three(answer, x, y, z)
}

impl<N: Number> Color<N> for Oklab<N> {
    ghost numbers = { oklab_numbers };

    ghost in_range = { oklab_in_range N.ops N.traced };

    // The lightness is in 0..1.
    fn is_in_range(self) -> bool {
        is_in_unit(self.l) && !self.a.is_spoiled() && !self.b.is_spoiled()
    }

    fn settled(self) -> Result<Oklab<N>, NumberFault> {
        settle_three(self, self.l, self.a, self.b)
    }
}

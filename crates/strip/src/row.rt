// One row written from another, entry by entry, over a boundary.
ghost use Rattle.std.specs.Prelude.{◌≡◌, map, Result as ResultOf};
ghost use Rattle.fault.specs.declared.faults.TurnFault.{TurnFault as TurnFaultOf};
ghost use Rattle.number.specs.Meaning.{Meaning};
ghost use Rattle.boundary.specs.Model.{Stays};
ghost use Rattle.boundary.specs.Query.{Gamut};
ghost use Rattle.oklab.specs.Steps.{Steps, Follows, run};
ghost use Rattle.strip.specs.Alike.{meant_turn, ending};
ghost use Rattle.strip.specs.Fills.{Answering, Fills, Untouched};
ghost use Rattle.strip.specs.Rows.{row};

use boundary::Boundary;
use fault::{RowFault, TurnFault, at_index};
use number::Number;

/// What is done with one entry of a row.
///
/// `reads` and `writes` say what an entry that is read and one that is written mean.
pub trait Turn<N: Number> {
    type From: Copy;

    type To: Copy;

    ghost Read: { Type 0 };

    ghost Wrote: { Type 0 };

    ghost reads: { Self.From → Read };

    ghost writes: { Self.To → Wrote };

    // the answer for an entry, over numbers and over what they mean
    ghost steps: { Self.From → Steps N (ResultOf Self.To TurnFaultOf) };

    ghost plainly: { Read → Steps Meaning (ResultOf Wrote TurnFaultOf) };

    fn turn<B: Boundary<N>>(boundary: &mut B, x: Self::From) -> Result<Self::To, TurnFault>
        ensures value { Follows N.means (B.meaning boundary.old) (steps x) result }
        ensures stays { Stays B.meaning B.model boundary.old boundary.new };

    ghost carried: { (g : Gamut) (x : Self.From) (a : ResultOf Self.To TurnFaultOf) → Follows N.means g (steps x) a → meant_turn writes a ≡ run g (plainly (reads x)) };
}

/// Writes each entry of a row from its own of the other, up to the first refusal, whose index the fault holds.
pub fn fill<N: Number, B: Boundary<N>, T: Turn<N>>(
    boundary: &mut B,
    from: &[T::From],
    to: &mut [T::To],
) -> Result<(), RowFault>
    ensures value { Fills (Answering N.means (B.meaning boundary.old) T.steps) from.now to.old result to.new }
    ensures meaning { row (λ x. run (B.meaning boundary.old) (T.plainly x)) (map T.reads from.now) (map T.writes to.old) ≡ record { ends = ending result; entries = map T.writes to.new } }
    ensures untouched { Untouched result to.old to.new }
    ensures stays { Stays B.meaning B.model boundary.old boundary.new }
{
    if from.len() != to.len() {
        return Err(RowFault::Length);
    }
    // By index into the row that is written: after a `zip` with `iter_mut` no proof knows what was written.
    for (i, x) in from.iter().enumerate() {
        let answer = at_index(i, T::turn(boundary, *x))?;
        to[i] = answer;
    }
    Ok(())
}

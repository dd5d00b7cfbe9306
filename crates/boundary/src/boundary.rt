// What a boundary is: a meaning, one rule of refusal, and what a call leaves as it was.
ghost use Rattle.std.specs.Prelude.{◌≡◌, cond, Some, None};
ghost use Rattle.number.specs.Meaning.{Meaning};
ghost use Rattle.gamut.specs.declared.chroma.ChromaValues.{ChromaValues as Values};
ghost use Rattle.boundary.specs.Query.{Gamut, map_query};
ghost use Rattle.boundary.specs.Rule.{meant, inside, any_spoiled, ordered, first_trace, admitted};
ghost use Rattle.boundary.specs.Model.{Model, modelled, answered, Stays};
ghost use Rattle.boundary.specs.declared.query.Query.{Query as QueryOf};
ghost use Rattle.gamut.specs.Maps.{map_values};

use crate::query::Query;
use fault::NumberFault;
use gamut::chroma::ChromaValues;
use number::Number;

/// A boundary gives each query three numbers: zero, mid and max.
///
/// `meaning` says what they mean by what the query's numbers mean; code above a boundary uses nothing else of it.
/// A call leaves the boundary its meaning.
pub trait Boundary<N: Number> {
    ghost meaning: { Self → Gamut };

    // the plain model of the stack: the base's meaning and the factors
    ghost model: { Self → Model };

    // the memos of the stack are empty
    ghost fresh: { Self → Type 0 };

    // The query goes by reference: the check gives an impl no clauses of a default method that takes a `Query<N>` by value.
    // `Stays` stands in every contract: a member for it could be defined otherwise by an impl, and would tell a caller nothing.
    /// The three numbers, whatever they are.
    fn values(&mut self, query: &Query<N>) -> ChromaValues<N>
        ensures gives { map_values N.means result ≡ meaning self.old (map_query N.means query.now) }
        ensures stays { Stays meaning model self.old self.new };

    /// The three numbers of an accepted query. It is refused with 7 exactly when not 0 < lightness < 1, or one of the
    /// three is spoiled, or not 0 < zero, or not 0 < mid < max.
    fn query(&mut self, query: &Query<N>) -> Result<ChromaValues<N>, NumberFault>
        ensures gives { (v : Values N) × (map_values N.means v ≡ meaning self.old (map_query N.means query.now)) × (result ≡ admitted N.ops N.traced query.now.lightness v) }
        ensures means { meant (map_values N.means) result ≡ answered N.arith (meaning self.old) (map_query N.means query.now) }
        ensures stays { Stays meaning model self.old self.new }
    {
        let v = self.values(query);
        admit(query.lightness, v)
    }

    /// Empties the memos of the stack.
    fn forget(&mut self)
        ensures emptied { fresh self.new }
        ensures stays { Stays meaning model self.old self.new };

    ghost as_modelled: { (s : Self) (q : QueryOf Meaning) → meaning s q ≡ modelled N.arith (model s) q };
}

// The number, if it is spoiled.
fn spoiled<N: Number>(n: N) -> Option<N>
    ensures { result ≡ cond (N.ops.spoiled n) (Some n) None }
{
    n.is_spoiled().then_some(n)
}

// The trace of the first spoiled number.
fn first_trace<N: Number>(lightness: N, v: ChromaValues<N>) -> Option<(u8, u8)>
    ensures { result ≡ first_trace N.ops N.traced lightness v }
{
    spoiled(lightness)
        .or(spoiled(v.zero))
        .or(spoiled(v.mid))
        .or(spoiled(v.max))
        .and_then(N::trace)
}

// Whether a lightness is strictly between 0 and 1.
fn is_inside<N: Number>(lightness: N) -> bool
    ensures { result ≡ inside N.ops lightness }
{
    N::whole(0).lt(lightness) && lightness.lt(N::whole(1))
}

fn any_spoiled<N: Number>(v: ChromaValues<N>) -> bool
    ensures { result ≡ any_spoiled N.ops v }
{
    v.zero.is_spoiled() || v.mid.is_spoiled() || v.max.is_spoiled()
}

// Whether 0 < zero and 0 < mid < max.
fn is_ordered<N: Number>(v: ChromaValues<N>) -> bool
    ensures { result ≡ ordered N.ops v }
{
    let zero = N::whole(0);
    zero.lt(v.zero) && zero.lt(v.mid) && v.mid.lt(v.max)
}

/// The rule by which a query of this lightness with these three numbers is answered or refused.
pub fn admit<N: Number>(lightness: N, v: ChromaValues<N>) -> Result<ChromaValues<N>, NumberFault>
    ensures { result ≡ admitted N.ops N.traced lightness v }
{
    if is_inside(lightness) && !any_spoiled(v) && is_ordered(v) {
        Ok(v)
    } else {
        Err(NumberFault::Boundary(first_trace(lightness, v)))
    }
}

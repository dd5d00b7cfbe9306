// A margin over a boundary.
ghost use Rattle.std.specs.Prelude.{◌≡◌, true, IfOk};
ghost use Rattle.std.proofs.Common.{ap};
ghost use Rattle.gamut.specs.declared.chroma.ChromaValues.{ChromaValues as Values};
ghost use Rattle.boundary.specs.Query.{map_query};
ghost use Rattle.boundary.specs.Model.{with_factor, is_factor, times, Stays};
ghost use Rattle.gamut.specs.Maps.{map_values};

use crate::boundary::Boundary;
use crate::query::Query;
use fault::NumberFault;
use gamut::chroma::ChromaValues;
use number::Number;
use std::marker::Model;

/// Multiplies the three numbers of the boundary below by a factor above 0 and at most 1.
#[derive(Drop)]
pub struct Margin<N: Number, B> {
    factor: Factor<N>,
    below: B,
}

// A number above 0 and at most 1. A model says so and not a ghost field: a type that contains itself, as a stack of any
// height, may not hold a ghost field that cites a bound.
#[derive(Drop)]
struct Factor<N: Number> {
    value: N,
}

impl<N: Number> Model for Factor<N> {
    ghost Value = { N };

    ghost view = { λ f. f.value };

    ghost invariant = { λ f. is_factor N.arith (N.means f.value) ≡ true };
}

/// A boundary that was not taken, and why.
#[derive(Drop)]
pub struct Returned<B> {
    pub below: B,
    pub fault: NumberFault,
}

impl<B: Drop> From<Returned<B>> for NumberFault {
    ghost from_gives = { λ e r. r ≡ e.fault };

    fn from(e: Returned<B>) -> NumberFault {
        e.fault
    }
}

// Whether a number is above 0 and at most 1.
fn is_factor<N: Number>(factor: N) -> bool
    ensures { result ≡ is_factor N.ops factor }
{
    !factor.is_spoiled() && N::whole(0).lt(factor) && factor.le(N::whole(1))
}

impl<N: Number, B: Boundary<N>> Margin<N, B> {
    ghost use Rattle.boundary.specs.Margins.{made_margin, margin_model, MarginFresh};

    /// A margin over the boundary, which is given back with `NumberFault::Range` unless the factor is above 0 and at most 1.
    pub fn new(factor: N, below: B) -> Result<Margin<N, B>, Returned<B>>
        ensures which { result ≡ made_margin N.ops factor below }
        ensures model { IfOk result (λ m. margin_model N.means B.model m ≡ with_factor (N.means factor) (B.model below)) }
        ensures fresh { IfOk result (λ m. B.fresh below → MarginFresh B.fresh m) }
    {
        if is_factor(factor) {
            Ok(Margin {
                factor: Factor { value: factor },
                below,
            })
        } else {
            Err(Returned {
                below,
                fault: NumberFault::Range,
            })
        }
    }

    /// The factor, which is above 0 and at most 1.
    pub fn factor(&self) -> N
        ensures which { result ≡ self.now.factor }
        ensures in_range { is_factor N.arith (N.means result) ≡ true }
    {
        self.factor.value
    }
}

// The three numbers times a factor. Field by field: a public `map` would have to require that its function may be called.
fn shrink<N: Number>(v: ChromaValues<N>, factor: &Factor<N>) -> ChromaValues<N>
    ensures { result ≡ times N.ops v factor.now }
{
    let factor = factor.value;
    ChromaValues {
        zero: v.zero.mul(factor),
        mid: v.mid.mul(factor),
        max: v.max.mul(factor),
    }
}

impl<N: Number, B: Boundary<N>> Boundary<N> for Margin<N, B> {
    ghost use Rattle.boundary.specs.Margins.{margin_meaning, margin_model, MarginFresh};

    ghost meaning = { margin_meaning N.arith N.means B.meaning };

    ghost model = { margin_model N.means B.model };

    ghost fresh = { MarginFresh B.fresh };

    ghost as_modelled = { λ s q. ap (λ v. times N.Number.arith v (N.Number.means s.factor)) (B.Boundary.as_modelled s.below q) };

    fn values(&mut self, query: &Query<N>) -> ChromaValues<N>
        ensures gives { map_values N.means result ≡ margin_meaning N.arith N.means B.meaning self.old (map_query N.means query.now) }
        ensures stays { Stays (margin_meaning N.arith N.means B.meaning) (margin_model N.means B.model) self.old self.new }
        ensures product { (v : Values N) × (map_values N.means v ≡ B.meaning self.old.below (map_query N.means query.now)) × (result ≡ times N.ops v self.old.factor) }
    {
        let v = self.below.values(query);
        shrink(v, &self.factor)
    }

    fn forget(&mut self) {
        self.below.forget();
    }
}

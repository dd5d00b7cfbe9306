// A memo over a boundary.
ghost use Rattle.std.specs.Prelude.{◌≡◌, None};
ghost use Rattle.gamut.specs.declared.chroma.ChromaValues.{ChromaValues as Values};
ghost use Rattle.boundary.specs.Query.{map_query};
ghost use Rattle.boundary.specs.Rule.{meant, admitted};
ghost use Rattle.boundary.specs.Model.{answered, Stays};
ghost use Rattle.boundary.specs.Kept.{after, recalled_from, KeptRight, MemoView};
ghost use Rattle.gamut.specs.Maps.{map_values};
ghost use Rattle.std.proofs.Common.{rules};

use crate::boundary::{Boundary, admit};
use crate::query::Query;
use fault::NumberFault;
use gamut::chroma::ChromaValues;
use number::Number;
use std::marker::Model;

/// A query with its answer.
#[derive(Clone, Copy)]
pub struct Kept<N> {
    pub query: Query<N>,
    pub answer: ChromaValues<N>,
}

/// Keeps the last accepted query with its answer, and answers it again without the boundary below.
#[derive(Drop)]
pub struct Memo<N: Number, B: Boundary<N>> {
    below: B,
    kept: Option<Kept<N>>,
}

// What is kept is right. A model says so and not a ghost field: a struct over any kind of number may not hold one that cites
// a bound on the boundary below.
impl<N: Number, B: Boundary<N>> Model for Memo<N, B> {
    ghost Value = { MemoView N B };

    ghost view = { λ m. record { below = m.below; kept = m.kept } };

    ghost invariant = { λ m. KeptRight N.means (B.meaning m.below) m.kept };
}

impl<N: Number, B: Boundary<N>> Memo<N, B> {
    ghost use Rattle.boundary.specs.Memos.{memo_model, MemoFresh};

    /// An empty memo over the boundary.
    pub fn new(below: B) -> Memo<N, B>
        ensures which { result ≡ record { below = below; kept = None } }
        ensures model { memo_model B.model result ≡ B.model below }
        ensures fresh { B.fresh below → MemoFresh B.fresh result }
    {
        Memo { below, kept: None }
    }

    /// The query that is kept, with its answer.
    pub fn kept(&self) -> Option<Kept<N>>
        ensures which { result ≡ self.now.kept }
        ensures right { KeptRight N.means (B.meaning self.now.below) result }
    {
        self.kept
    }
}

// What is kept for a query.
fn recall<N: Number>(kept: Option<Kept<N>>, query: &Query<N>) -> Option<ChromaValues<N>>
    ensures { result ≡ recalled_from N.ops kept query.now }
{
    kept.filter(|k| k.query.same(query)).map(|k| k.answer)
}

// What to keep after a query that was not recalled.
fn keep<N: Number>(kept: Option<Kept<N>>, query: &Query<N>, v: ChromaValues<N>) -> Option<Kept<N>>
    ensures { result ≡ after kept query.now (admitted N.ops N.traced query.now.lightness v) }
{
    admit(query.lightness, v)
        .ok()
        .map(|answer| Kept {
            query: *query,
            answer,
        })
        .or(kept)
}

impl<N: Number, B: Boundary<N>> Boundary<N> for Memo<N, B> {
    ghost use Rattle.boundary.specs.Memos.{memo_meaning, memo_model, MemoFresh, Recalls};

    ghost meaning = { memo_meaning B.meaning };

    ghost model = { memo_model B.model };

    ghost fresh = { MemoFresh B.fresh };

    ghost as_modelled = { Prim.search rules };

    /// Recalls the kept query's three numbers; those of another query come from below, and an accepted one is kept.
    fn values(&mut self, query: &Query<N>) -> ChromaValues<N>
        ensures gives { map_values N.means result ≡ memo_meaning B.meaning self.old (map_query N.means query.now) }
        ensures stays { Stays (memo_meaning B.meaning) (memo_model B.model) self.old self.new }
        ensures recalls { Recalls N.means (λ k. k.answer) (λ v. after self.old.kept query.now (admitted N.ops N.traced query.now.lightness v)) self.old query.now result self.new }
    {
        if let Some(v) = recall(self.kept, query) {
            return v;
        }
        let v = self.below.values(query);
        self.kept = keep(self.kept, query, v);
        v
    }

    /// The same with the rule of refusal.
    // The body of the trait's own `query`, written again: only a method of the memo's can promise `recalls`.
    fn query(&mut self, query: &Query<N>) -> Result<ChromaValues<N>, NumberFault>
        ensures gives { (v : Values N) × (map_values N.means v ≡ memo_meaning B.meaning self.old (map_query N.means query.now)) × (result ≡ admitted N.ops N.traced query.now.lightness v) }
        ensures means { meant (map_values N.means) result ≡ answered N.arith (memo_meaning B.meaning self.old) (map_query N.means query.now) }
        ensures stays { Stays (memo_meaning B.meaning) (memo_model B.model) self.old self.new }
        ensures recalls { Recalls N.means (λ k. admitted N.ops N.traced query.now.lightness k.answer) (after self.old.kept query.now) self.old query.now result self.new }
    {
        let v = self.values(query);
        admit(query.lightness, v)
    }

    /// Empties the memo, and those below.
    fn forget(&mut self)
        ensures emptied { MemoFresh B.fresh self.new }
        ensures stays { Stays (memo_meaning B.meaning) (memo_model B.model) self.old self.new }
        ensures forgets { self.new.kept ≡ None }
    {
        self.kept = None;
        self.below.forget();
    }
}

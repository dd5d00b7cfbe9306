// The gamut of sRGB, a base.
ghost use Rattle.std.specs.Prelude.{◌≡◌};
ghost use Rattle.boundary.specs.Model.{always, Stays};
ghost use Rattle.boundary.specs.Query.{map_query};
ghost use Rattle.boundary.specs.Srgbs.{srgb_at, srgb_meaning, srgb_model};
ghost use Rattle.gamut.specs.Maps.{map_values};
ghost use Rattle.std.proofs.Common.{rules};

use crate::boundary::Boundary;
use crate::query::Query;
use gamut::chroma::ChromaValues;
use number::Number;
use srgb_gamut::from_normalized;

/// The boundary of sRGB, for every number kind.
#[derive(Drop)]
pub struct Srgb {}

impl Srgb {
    /// The boundary of sRGB.
    pub fn new() -> Srgb
        ensures { result ≡ record {} }
    {
        Srgb {}
    }
}

impl<N: Number> Boundary<N> for Srgb {
    ghost meaning = { srgb_meaning N.arith };

    ghost model = { srgb_model N.arith };

    ghost fresh = { always };

    ghost as_modelled = { Prim.search rules };

    fn values(&mut self, query: &Query<N>) -> ChromaValues<N>
        ensures gives { map_values N.means result ≡ srgb_meaning N.arith self.old (map_query N.means query.now) }
        ensures stays { Stays (srgb_meaning N.arith) (srgb_model N.arith) self.old self.new }
        ensures which { result ≡ srgb_at N.ops query.now }
        ensures same { self.new ≡ self.old }
    {
        from_normalized(query.lightness, query.hue)
    }

    /// sRGB has nothing to forget.
    fn forget(&mut self)
        ensures emptied { always self.new }
        ensures stays { Stays (srgb_meaning N.arith) (srgb_model N.arith) self.old self.new }
        ensures same { self.new ≡ self.old }
    {}
}

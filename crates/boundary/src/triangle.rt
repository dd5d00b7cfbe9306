// The triangle, a base of two slopes.
ghost use Rattle.std.specs.Prelude.{◌≡◌, IfOk};
ghost use Rattle.boundary.specs.Query.{map_query};
ghost use Rattle.boundary.specs.Model.{of_base, always, Stays};
ghost use Rattle.boundary.specs.Triangles.{is_slope, triangle_at, triangle as triangle_of, made_triangle, triangle_meaning, triangle_model};
ghost use Rattle.gamut.specs.Maps.{map_values};
ghost use Rattle.std.proofs.Common.{rules};

use crate::boundary::Boundary;
use crate::query::Query;
use fault::NumberFault;
use gamut::chroma::ChromaValues;
use number::Number;

/// A boundary whose chroma rises from black with the slope S and falls to white with the slope T, whatever the direction.
#[derive(Drop)]
pub struct Triangle<N> {
    s: N,
    t: N,
}

// Whether a number is above 0; a margin's factor has the same two tests, grouped with a third.
fn is_slope<N: Number>(s: N) -> bool
    ensures { result ≡ is_slope N.ops s }
{
    !s.is_spoiled() && N::whole(0).lt(s)
}

impl<N: Number> Triangle<N> {
    /// A triangle with these slopes, refused with `NumberFault::Range` unless both are above 0.
    pub fn new(s: N, t: N) -> Result<Triangle<N>, NumberFault>
        ensures which { result ≡ made_triangle N.ops s t }
        ensures model { IfOk result (λ x. triangle_model N.arith N.means x ≡ of_base (triangle_of N.arith (N.means s) (N.means t))) }
    {
        if is_slope(s) && is_slope(t) {
            Ok(Triangle { s, t })
        } else {
            Err(NumberFault::Range)
        }
    }

    // The three numbers at a lightness.
    fn at(&self, lightness: N) -> ChromaValues<N>
        ensures { result ≡ triangle_at N.ops self.now.s self.now.t lightness }
    {
        let rise = lightness.mul(self.s);
        let fall = N::whole(1).sub(lightness).mul(self.t);
        let max = rise.min(fall);
        ChromaValues {
            zero: N::whole(1).div(N::whole(2)).mul(max),
            mid: N::whole(3).div(N::whole(5)).mul(max),
            max,
        }
    }
}

impl<N: Number> Boundary<N> for Triangle<N> {
    ghost meaning = { triangle_meaning N.arith N.means };

    ghost model = { triangle_model N.arith N.means };

    ghost fresh = { always };

    ghost as_modelled = { Prim.search rules };

    fn values(&mut self, query: &Query<N>) -> ChromaValues<N>
        ensures gives { map_values N.means result ≡ triangle_meaning N.arith N.means self.old (map_query N.means query.now) }
        ensures stays { Stays (triangle_meaning N.arith N.means) (triangle_model N.arith N.means) self.old self.new }
        ensures which { result ≡ triangle_of N.ops self.old.s self.old.t query.now }
        ensures same { self.new ≡ self.old }
    {
        self.at(query.lightness)
    }

    /// A triangle has nothing to forget.
    fn forget(&mut self)
        ensures emptied { always self.new }
        ensures stays { Stays (triangle_meaning N.arith N.means) (triangle_model N.arith N.means) self.old self.new }
        ensures same { self.new ≡ self.old }
    {}
}

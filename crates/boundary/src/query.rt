// What is asked of a boundary.
ghost use Rattle.std.specs.Prelude.{◌≡◌};
ghost use Rattle.boundary.specs.Query.{map_query, same_direction, same_query};

use gamut::direction::Direction;
use number::Number;

/// A query of a boundary: a lightness and a hue.
#[derive(Clone, Copy)]
pub struct Query<N> {
    pub lightness: N,
    pub hue: Direction<N>,
}

// Whether the numbers of the two directions mean the same.
fn same_direction<N: Number>(d: Direction<N>, e: Direction<N>) -> bool
    ensures { result ≡ same_direction N.ops d e }
{
    d.a.same(e.a) && d.b.same(e.b)
}

impl<N: Number> Query<N> {
    /// The query of plain forms.
    pub fn from_plain(p: Query<N::Plain>) -> Query<N>
        ensures { result ≡ map_query N.back p }
    {
        Query {
            lightness: N::from_plain(p.lightness),
            hue: Direction::from_plain(p.hue),
        }
    }

    // Whether the numbers of the two queries mean the same.
    pub(crate) fn same(&self, other: &Query<N>) -> bool
        ensures { result ≡ same_query N.ops self.now other.now }
    {
        self.lightness.same(other.lightness) && same_direction(self.hue, other.hue)
    }
}

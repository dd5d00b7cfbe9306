// A hue.
ghost use Rattle.std.specs.Prelude.{◌≡◌};
ghost use Rattle.gamut.specs.Maps.{map_direction};

use number::Number;

/// A hue, as a direction in Oklab's plane of a and b: a² + b² = 1.
#[derive(Clone, Copy)]
pub struct Direction<N> {
    pub a: N,
    pub b: N,
}

impl<N: Number> Direction<N> {
    /// The hue of plain forms.
    // Field by field: with no other use, a `map` would be longer.
    pub fn from_plain(p: Direction<N::Plain>) -> Direction<N>
        ensures { result ≡ map_direction N.back p }
    {
        Direction {
            a: N::from_plain(p.a),
            b: N::from_plain(p.b),
        }
    }
}

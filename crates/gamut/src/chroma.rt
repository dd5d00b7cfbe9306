// The chroma values of a lightness and a hue.
ghost use Rattle.std.specs.Prelude.{◌≡◌};
ghost use Rattle.gamut.specs.Maps.{map_values};

use number::Number;

/// Three chromas of one lightness and hue: `zero` gives the slope at saturation 0, `mid` is the chroma at saturation 0.8, `max` the largest.
#[derive(Clone, Copy)]
pub struct ChromaValues<N> {
    pub zero: N,
    pub mid: N,
    pub max: N,
}

impl<N: Number> ChromaValues<N> {
    /// The values with each number in its plain form.
    // Field by field: with no other use, a `map` would be longer.
    pub fn to_plain(self) -> ChromaValues<N::Plain>
        ensures { result ≡ map_values N.plain self }
    {
        ChromaValues {
            zero: self.zero.to_plain(),
            mid: self.mid.to_plain(),
            max: self.max.to_plain(),
        }
    }
}

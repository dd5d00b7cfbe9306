// The values of the table's rows, as the numbers that a row has for them.
use crate::row::{Words, parse_numbers, patterns};
use gamut::chroma::ChromaValues;
use gamut::direction::Direction;
use gamut::oklab::Oklab;
use gamut::rgb::LinSrgb;
use gamut::xyz::Xyz;
use oklab::{Okhsl, Okhsv, Okhwb, Oklch};
use srgb_gamut::LC;

/// A value for which a row has up to four numbers. Each type has an impl of its own, since its fields have names of their own.
pub(crate) trait Columns: Copy {
    /// Reads the value's numbers off a row. None if they are not there.
    fn parse(words: &mut Words) -> Option<Self>;

    /// The bit patterns of the value's numbers, and zeros after them.
    fn patterns(self) -> [u32; 4];
}

impl Columns for f32 {
    fn parse(words: &mut Words) -> Option<Self> {
        let [x] = parse_numbers::<1>(words)?;
        Some(x)
    }

    fn patterns(self) -> [u32; 4] {
        patterns([self])
    }
}

impl Columns for Direction<f32> {
    fn parse(words: &mut Words) -> Option<Self> {
        let [a, b] = parse_numbers::<2>(words)?;
        Some(Direction { a, b })
    }

    fn patterns(self) -> [u32; 4] {
        patterns([self.a, self.b])
    }
}

impl Columns for LC<f32> {
    fn parse(words: &mut Words) -> Option<Self> {
        let [lightness, chroma] = parse_numbers::<2>(words)?;
        Some(LC { lightness, chroma })
    }

    fn patterns(self) -> [u32; 4] {
        patterns([self.lightness, self.chroma])
    }
}

impl Columns for (f32, Direction<f32>) {
    fn parse(words: &mut Words) -> Option<Self> {
        let [lightness, a, b] = parse_numbers::<3>(words)?;
        Some((lightness, Direction { a, b }))
    }

    fn patterns(self) -> [u32; 4] {
        let (lightness, hue) = self;
        patterns([lightness, hue.a, hue.b])
    }
}

impl Columns for ChromaValues<f32> {
    fn parse(words: &mut Words) -> Option<Self> {
        let [zero, mid, max] = parse_numbers::<3>(words)?;
        Some(ChromaValues { zero, mid, max })
    }

    fn patterns(self) -> [u32; 4] {
        patterns([self.zero, self.mid, self.max])
    }
}

impl Columns for Oklab<f32> {
    fn parse(words: &mut Words) -> Option<Self> {
        let [l, a, b] = parse_numbers::<3>(words)?;
        Some(Oklab { l, a, b })
    }

    fn patterns(self) -> [u32; 4] {
        patterns([self.l, self.a, self.b])
    }
}

impl Columns for LinSrgb<f32> {
    fn parse(words: &mut Words) -> Option<Self> {
        let [red, green, blue] = parse_numbers::<3>(words)?;
        Some(LinSrgb { red, green, blue })
    }

    fn patterns(self) -> [u32; 4] {
        patterns([self.red, self.green, self.blue])
    }
}

impl Columns for Xyz<f32> {
    fn parse(words: &mut Words) -> Option<Self> {
        let [x, y, z] = parse_numbers::<3>(words)?;
        Some(Xyz { x, y, z })
    }

    fn patterns(self) -> [u32; 4] {
        patterns([self.x, self.y, self.z])
    }
}

impl Columns for Okhsl<f32> {
    fn parse(words: &mut Words) -> Option<Self> {
        let [a, b, saturation, lightness] = parse_numbers::<4>(words)?;
        Some(Okhsl {
            hue: Direction { a, b },
            saturation,
            lightness,
        })
    }

    fn patterns(self) -> [u32; 4] {
        patterns([self.hue.a, self.hue.b, self.saturation, self.lightness])
    }
}

impl Columns for Okhsv<f32> {
    fn parse(words: &mut Words) -> Option<Self> {
        let [a, b, saturation, value] = parse_numbers::<4>(words)?;
        Some(Okhsv {
            hue: Direction { a, b },
            saturation,
            value,
        })
    }

    fn patterns(self) -> [u32; 4] {
        patterns([self.hue.a, self.hue.b, self.saturation, self.value])
    }
}

impl Columns for Okhwb<f32> {
    fn parse(words: &mut Words) -> Option<Self> {
        let [a, b, whiteness, blackness] = parse_numbers::<4>(words)?;
        Some(Okhwb {
            hue: Direction { a, b },
            whiteness,
            blackness,
        })
    }

    fn patterns(self) -> [u32; 4] {
        patterns([self.hue.a, self.hue.b, self.whiteness, self.blackness])
    }
}

impl Columns for Oklch<f32> {
    fn parse(words: &mut Words) -> Option<Self> {
        let [l, chroma, a, b] = parse_numbers::<4>(words)?;
        Some(Oklch {
            l,
            chroma,
            hue: Direction { a, b },
        })
    }

    fn patterns(self) -> [u32; 4] {
        patterns([self.l, self.chroma, self.hue.a, self.hue.b])
    }
}

// The conversions of the table, by their names, at f32.
use crate::row::{Found, Words, compare};
use boundary::Srgb;
use gamut::direction::Direction;
use gamut::oklab::Oklab;
use gamut::rgb::LinSrgb;
use gamut::toe::{toe, toe_inv};
use gamut::xyz::Xyz;
use oklab::{
    Okhsl, Okhsv, Okhwb, Oklch, linear_srgb_to_oklab, okhsl_to_oklab, okhsv_to_okhwb,
    okhsv_to_oklab, okhwb_to_okhsv, oklab_to_linear_srgb, oklab_to_okhsl, oklab_to_okhsv,
    oklab_to_oklch, oklab_to_xyz, oklch_to_oklab, xyz_to_oklab,
};
use srgb_gamut::{LC, from_normalized};
use std::fmt;
use std::str::FromStr;

/// A conversion, or a part of one.
#[derive(Clone, Copy, PartialEq, Eq, PartialOrd, Ord)]
pub enum Conversion {
    OkhslToOklab,
    OklabToOkhsl,
    OkhsvToOklab,
    OklabToOkhsv,
    OkhwbToOkhsv,
    OkhsvToOkhwb,
    OklchToOklab,
    OklabToOklch,
    RgbToOklab,
    OklabToRgb,
    XyzToOklab,
    OklabToXyz,
    ChromaValues,
    Cusp,
    Toe,
    ToeInv,
}

/// All of them, in their order.
pub const ALL: [Conversion; 16] = [
    Conversion::OkhslToOklab,
    Conversion::OklabToOkhsl,
    Conversion::OkhsvToOklab,
    Conversion::OklabToOkhsv,
    Conversion::OkhwbToOkhsv,
    Conversion::OkhsvToOkhwb,
    Conversion::OklchToOklab,
    Conversion::OklabToOklch,
    Conversion::RgbToOklab,
    Conversion::OklabToRgb,
    Conversion::XyzToOklab,
    Conversion::OklabToXyz,
    Conversion::ChromaValues,
    Conversion::Cusp,
    Conversion::Toe,
    Conversion::ToeInv,
];

impl Conversion {
    /// The name in a row.
    fn name(self) -> &'static str {
        match self {
            Conversion::OkhslToOklab => "okhsl>oklab",
            Conversion::OklabToOkhsl => "oklab>okhsl",
            Conversion::OkhsvToOklab => "okhsv>oklab",
            Conversion::OklabToOkhsv => "oklab>okhsv",
            Conversion::OkhwbToOkhsv => "okhwb>okhsv",
            Conversion::OkhsvToOkhwb => "okhsv>okhwb",
            Conversion::OklchToOklab => "oklch>oklab",
            Conversion::OklabToOklch => "oklab>oklch",
            Conversion::RgbToOklab => "rgb>oklab",
            Conversion::OklabToRgb => "oklab>rgb",
            Conversion::XyzToOklab => "xyz>oklab",
            Conversion::OklabToXyz => "oklab>xyz",
            Conversion::ChromaValues => "chroma_values",
            Conversion::Cusp => "cusp",
            Conversion::Toe => "toe",
            Conversion::ToeInv => "toe_inv",
        }
    }

    /// Compares what the words after the name in a row expect with what the library gives, which is the error where the two differ.
    /// None if these are not the words of a row.
    pub(crate) fn replay(self, words: &mut Words) -> Option<Result<(), Found>> {
        // Closures throughout: the check does not yet take a function of another crate as a value.
        match self {
            Conversion::OkhslToOklab => compare(
                words,
                |color: Okhsl<f32>| okhsl_to_oklab(color, &mut Srgb::new()),
            ),
            Conversion::OklabToOkhsl => compare(
                words,
                |color: Oklab<f32>| oklab_to_okhsl(color, &mut Srgb::new()),
            ),
            Conversion::OkhsvToOklab => compare(words, |color: Okhsv<f32>| okhsv_to_oklab(color)),
            Conversion::OklabToOkhsv => compare(words, |color: Oklab<f32>| oklab_to_okhsv(color)),
            Conversion::OkhwbToOkhsv => compare(words, |color: Okhwb<f32>| okhwb_to_okhsv(color)),
            Conversion::OkhsvToOkhwb => compare(words, |color: Okhsv<f32>| okhsv_to_okhwb(color)),
            Conversion::OklchToOklab => compare(words, |color: Oklch<f32>| oklch_to_oklab(color)),
            Conversion::OklabToOklch => compare(words, |color: Oklab<f32>| oklab_to_oklch(color)),
            Conversion::RgbToOklab => compare(
                words,
                |color: LinSrgb<f32>| linear_srgb_to_oklab(color),
            ),
            Conversion::OklabToRgb => compare(
                words,
                |color: Oklab<f32>| oklab_to_linear_srgb(color),
            ),
            Conversion::XyzToOklab => compare(words, |color: Xyz<f32>| xyz_to_oklab(color)),
            Conversion::OklabToXyz => compare(words, |color: Oklab<f32>| oklab_to_xyz(color)),
            Conversion::ChromaValues => {
                compare(
                    words,
                    |(lightness, hue): (f32, Direction<f32>)| Ok(from_normalized(lightness, hue)),
                )
            }
            Conversion::Cusp => compare(words, |hue: Direction<f32>| Ok(LC::find_cusp(hue))),
            Conversion::Toe => compare(words, |lightness: f32| Ok(toe(lightness))),
            Conversion::ToeInv => compare(words, |lightness: f32| Ok(toe_inv(lightness))),
        }
    }
}

impl fmt::Display for Conversion {
    fn fmt<W: fmt::Write>(&self, f: &mut fmt::Formatter<W>) -> fmt::Result {
        f.write_str(self.name())
    }
}

/// No conversion has this name.
#[derive(Clone, Copy)]
pub struct UnknownConversion;

impl FromStr for Conversion {
    type Err = UnknownConversion;

    fn from_str(name: &str) -> Result<Conversion, UnknownConversion> {
        ALL.into_iter()
            .find(|conversion| conversion.name() == name)
            .ok_or(UnknownConversion)
    }
}

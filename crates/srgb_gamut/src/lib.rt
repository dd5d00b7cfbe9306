// The gamut of sRGB in Oklab: for each hue its cusp, the chroma that a line reaches, and the chroma values of a lightness.
#![tactic(auto)]

mod chroma;
mod cusp;
mod intersection;
mod jet;
mod lms;
mod saturation;
mod triangle;

pub use chroma::from_normalized;
pub use cusp::LC;
pub use triangle::ST;

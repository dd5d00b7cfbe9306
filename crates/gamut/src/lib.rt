// The colour spaces Oklab, linear sRGB and XYZ, the toe, and the curve between Okhsl's saturation and Oklab's chroma.
#![tactic(auto)]

pub mod chroma;
pub mod curve;
pub mod direction;
pub mod lms;
mod matrix;
pub mod oklab;
pub mod rgb;
pub mod toe;
pub mod xyz;

pub use chroma::ChromaValues;
pub use direction::Direction;
pub use lms::Lms;
pub use oklab::Oklab;
pub use rgb::LinSrgb;
pub use xyz::Xyz;

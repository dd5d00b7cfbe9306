// The colour spaces of the Oklab family and their conversions.
#![tactic(auto)]

mod checks;
mod chromatic;
mod okhsl;
mod okhsv;
mod okhwb;
mod oklch;
mod spaces;
mod word;

pub use checks::unspoiled;
pub use okhsl::{Okhsl, okhsl_to_oklab, oklab_to_okhsl};
pub use okhsv::{Okhsv, okhsv_to_oklab, oklab_to_okhsv};
pub use okhwb::{Okhwb, okhsv_to_okhwb, okhwb_to_okhsv};
pub use oklch::{Oklch, oklab_to_oklch, oklch_to_oklab};
pub use spaces::{linear_srgb_to_oklab, oklab_to_linear_srgb, oklab_to_xyz, xyz_to_oklab};
pub use word::{Word, okhsl_word};

// Boundaries of a gamut, and stacks of margins and memos over them.
#![tactic(auto)]

mod boundary;
mod margin;
mod memo;
mod query;
mod srgb;
mod triangle;

pub use boundary::{Boundary, admit};
pub use margin::{Margin, Returned};
pub use memo::{Kept, Memo};
pub use query::Query;
pub use srgb::Srgb;
pub use triangle::Triangle;

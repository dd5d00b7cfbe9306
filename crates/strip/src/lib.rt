// The strip: what the panel draws and the page reads, and what is proved of the two together.
#![tactic(auto)]

mod commissioning;
mod curve;
mod indication;
pub mod page;
pub mod panel;
mod row;
mod run;
mod trip;
mod valve;

pub use commissioning::commission;
pub use curve::curve_rises;
pub use indication::Indication;
pub use run::{AskCall, Call, DrawCall, ReadCall, replay};
pub use trip::{comes_home, rows_come_home};

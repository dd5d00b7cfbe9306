// The faults of the library, each inside the next: a number's, an entry's, a row's, a block's.
#![tactic(auto)]

mod faults;
mod refusal;

pub use faults::{BlockFault, NumberFault, Placed, RowFault, TurnFault, at_index};
pub use refusal::Refusal;

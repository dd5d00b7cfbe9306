// The valve log: blocks of 512 bytes, each with at most 62 readings under a checksum.
#![tactic(auto)]

mod block;
mod checksum;
mod reading;
mod record;
mod valve;

pub use block::{BLOCK, Head, read, write};
pub use reading::{Reading, check_row};
pub use record::READINGS;
pub use valve::Valve;

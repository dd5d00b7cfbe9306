// Number kinds: what the colour formulas compute with.
#![tactic(auto)]

mod fault;
mod float32;
mod formulas;
mod kind;
mod literal;
mod traced;

pub use fault::{Cause, Fault, Stage};
pub use formulas::{cube, hypot, size, square};
pub use kind::{Exact, Number};
pub use literal::Literal;
pub use traced::{PlainTraced, Traced};

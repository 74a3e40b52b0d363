// The sheet of a rotation: its settings, a cheapest timing and its prices, and the calls that change them.
#![tactic(auto)]

mod calls;
mod sheet;

pub use calls::{Asked, run, run_into};
pub use sheet::Sheet;

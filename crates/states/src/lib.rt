// The plain state of a sheet: its settings, a cheapest timing and its prices, and how a call changes them.
#![tactic(auto)]

mod apply;
mod cost;
mod plans;
mod rows;
mod standing;
mod state;

pub use standing::Standing;
pub use state::State;

// The lines of a text, and the first characters of a text and of an input.
#![tactic(auto)]

mod input;
mod lines;

pub use input::{LIMIT, read_start};
pub use lines::{Lines, start_of};

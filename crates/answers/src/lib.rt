// Answer lines: what a program answers to each line of calls, written and read back.
#![tactic(auto)]

mod decoding;
mod encoding;
pub mod kinds;

pub use kinds::{Answer, Reading};

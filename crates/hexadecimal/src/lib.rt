// Bytes as capital hexadecimal, written and read.
#![tactic(auto)]

mod hex;

pub use hex::{read_hex, write_hex};

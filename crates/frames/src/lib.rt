// Frames: calls as lines of capital hexadecimal, and back, and in words.
#![tactic(auto)]

pub mod calls;
pub mod faults;
mod reading;
mod trips;
mod words;
mod writing;

pub use calls::Call;
pub use faults::FrameFault;

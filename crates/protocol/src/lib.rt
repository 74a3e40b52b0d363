// The protocol of a rotation: a text of calls, answered line by line.
#![tactic(auto)]

mod desk;
mod fault;
mod program;
mod request;
mod sound;
mod text;
mod timed;
mod timing;

pub use fault::LineFault;
pub use program::serve;
pub use text::{answer_into, answer_text};

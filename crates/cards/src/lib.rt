// Card books: costs in kilograms, given minute by minute.
#![tactic(auto)]

mod book;
mod checks;
mod deck;
mod head;

pub use book::{CardBook, load};
pub use head::Head;

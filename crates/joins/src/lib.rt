// Joined books: the legs of one book and then those of another.
#![tactic(auto)]

mod joined;

pub use joined::JoinedBook;

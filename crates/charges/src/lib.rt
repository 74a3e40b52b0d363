// Charge books: rates in cents a minute over any book.
#![tactic(auto)]

mod charge;

pub use charge::ChargeBook;

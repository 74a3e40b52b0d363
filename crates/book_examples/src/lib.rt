// Examples of amounts and books, as tests. They stand apart, since a crate with tests is proved once more for them.
#![tactic(auto)]

#[cfg(test)]
mod book_edges;
#[cfg(test)]
mod card_loads;
#[cfg(test)]
mod kinds;

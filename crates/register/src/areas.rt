// The lengths of the two work areas that a call is handed.

// How many places there are for minutes, and how many for amounts.
#[derive(Clone, Copy, PartialEq, Eq, Debug)]
pub struct Areas {
    pub minutes: usize,
    pub amounts: usize,
}

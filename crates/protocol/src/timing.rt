// A timing as it is told.
use arrayvec::ArrayVec;

// The minutes of the legs, leg 1 first, and what they cost in kilograms and cents.
#[derive(Drop)]
pub(crate) struct Timing {
    pub(crate) minutes: ArrayVec<u16, 64>,
    pub(crate) kilograms: i64,
    pub(crate) cents: i64,
}

// The answers to a line of calls.
use board::Refusal;

// An answer to be written. A rotation has at most 64 legs: minutes past the sixty-fourth are no
// part of the answer.
#[derive(Clone, Copy)]
pub enum Answer<'a> {
    // The call is granted, and nothing stands to be told.
    Done,
    // The call is granted: the minutes that stand, from leg 1 on, and their cost.
    Timing {
        minutes: &'a [u16],
        kilograms: i64,
        cents: i64,
    },
    // The line is refused; lines count from 1.
    Refused {
        refusal: Refusal,
        line: u16,
    },
}

// An answer that was read. The minutes of a timing stand in the place that its reader was given, and not in the answer: that is why
// it is a type of its own.
#[derive(Clone, Copy, PartialEq, Eq, Debug)]
pub enum Reading {
    Done,
    Timing {
        legs: u8,
        kilograms: i64,
        cents: i64,
    },
    Refused {
        refusal: Refusal,
        line: u16,
    },
}

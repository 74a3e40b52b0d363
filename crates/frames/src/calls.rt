// The calls that a frame can carry.

// One case for each call, its fields as wide as in the frame. Apart from the calls of a sheet, six of which it spells: a frame may
// write in a book as well, and frames know of no sheet.
#[derive(Clone, Copy, PartialEq, Eq, Debug)]
pub enum Call {
    // Opens the sheet with a total of minutes.
    Open {
        total: u16,
    },
    // Sets the least and the most minutes of a leg.
    Bounds {
        leg: u8,
        low: u16,
        high: u16,
    },
    // Sets the window of a stop.
    Window {
        stop: u8,
        low: u16,
        high: u16,
    },
    // Lifts the window of a stop.
    Lift {
        stop: u8,
    },
    // Sets the total of minutes.
    Total {
        total: u16,
    },
    // Closes the sheet.
    Close,
    // Adds a leg that costs q * (m - t)^2 + r at m minutes, for m from lo to hi.
    AddLeg {
        q: u16,
        t: u16,
        r: i32,
        lo: u16,
        hi: u16,
    },
    // Sets the rate of a leg, in cents a minute.
    SetRate {
        leg: u8,
        rate: u16,
    },
}

// The calls of a sheet.
ghost use Rattle.std.specs.Prelude.{◌≡◌};
ghost use Rattle.register.specs.Calls.{named};

// A call to a sheet, with its numbers.
#[derive(Clone, Copy, PartialEq, Eq, Debug)]
pub enum Call {
    // time the rotation anew, with this total
    Open { total: u16 },
    // set the bounds of a leg
    Bounds { leg: u8, low: u16, high: u16 },
    // set the window of a stop
    Window { stop: u8, low: u16, high: u16 },
    // set the window of a stop back to 0 to 4,095
    Lift { stop: u8 },
    // set the total
    Total { total: u16 },
    // make the sheet blank
    Close,
}

impl Call {
    // The leg or stop that the call names, 0 if it names none: that is how a refusal tells it.
    pub fn leg(self) -> u8
        ensures { result ≡ named self }
    {
        match self {
            Call::Bounds { leg, .. } => leg,
            Call::Window { stop, .. } | Call::Lift { stop } => stop,
            _ => 0,
        }
    }
}

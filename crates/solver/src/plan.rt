// The settings of a sheet as a plan holds them.
ghost use Rattle.std.specs.Prelude.{◌≡◌};
ghost use Rattle.solver.specs.Plans.{at, los, his, settings};

use books::Ends;

// The total of the day, the bounds of every leg and the window of every stop, by their numbers.
#[derive(Clone, Copy)]
pub struct Plan {
    pub total: u16,
    pub bounds: [Ends; 65],
    pub windows: [Ends; 65],
}

impl Plan {
    // The ranges from some minutes to the upper bounds of the legs.
    pub(crate) fn above(&self, minutes: &[u16; 65]) -> [Ends; 65]
        ensures { (los result ≡ at minutes.now) × (his result ≡ (settings self.now).high) }
    {
        let mut ranges = self.bounds;
        // over the minutes: a loop over the ranges would only move the index to the minutes
        for (leg, own) in minutes.iter().enumerate() {
            ranges[leg].lo = *own;
        }
        ranges
    }
}

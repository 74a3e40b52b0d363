// The sample rotations, as one statement about what books and settings mean (in specs/).
#![tactic(auto)]

ghost use Rattle.samples.specs.Samples.{Samples};

// It runs nothing, and its contract says what stands in every sample.
pub fn samples_hold()
    ensures { Samples }
{}

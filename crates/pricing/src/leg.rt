// The steps of a wire.
use grid::Step;

// A step of a wire, and what the wire costs up to the step's end.
#[derive(Clone, Copy, PartialEq, Eq, Debug)]
pub struct Leg<C> {
    pub step: Step,
    pub cost: C,
}

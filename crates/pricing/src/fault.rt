// Why a list of places is no wire.
ghost use Rattle.std.specs.Prelude.{Some};
ghost use Rattle.pricing.specs.Texts.{step_fault_text, wire_fault_text};

use grid::Step;
use std::fmt;

// Why two places are no step of a wire.
#[derive(Clone, Copy, PartialEq, Eq, Debug)]
pub enum StepFault {
    // no step joins them, or one of them is outside the shape
    NotJoined,
    // the tariff does not have such steps
    Lacked(Step),
    // the cost would be past the tariff's limits
    Refused(Step),
}

impl fmt::Display for StepFault {
    ghost output = { λ fault. Some (step_fault_text fault) };

    fn fmt<W: fmt::Write>(&self, f: &mut fmt::Formatter<W>) -> fmt::Result {
        match self {
            StepFault::NotJoined => f.write_str("not a step"),
            StepFault::Lacked(step) => write!(f, "not in the tariff: {step}"),
            StepFault::Refused(step) => write!(f, "past the limits: {step}"),
        }
    }
}

// Why a list of places is no wire.
#[derive(Clone, Copy, PartialEq, Eq, Debug)]
pub enum WireFault {
    // the list is empty
    NoPlace,
    // the first place is outside the shape
    OutsideShape(u32),
    // the step with this number, counted from 1, is none
    AtStep(usize, StepFault),
}

impl fmt::Display for WireFault {
    ghost output = { λ fault. Some (wire_fault_text fault) };

    fn fmt<W: fmt::Write>(&self, f: &mut fmt::Formatter<W>) -> fmt::Result {
        match self {
            WireFault::NoPlace => f.write_str("no place"),
            WireFault::OutsideShape(place) => write!(f, "{place} is outside the shape"),
            WireFault::AtStep(number, fault) => write!(f, "step {number} is {fault}"),
        }
    }
}

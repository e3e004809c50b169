// What a wire costs, step by step.
#![tactic(auto)]

ghost use Rattle.std.specs.Prelude.{◌≡◌, ◌↔◌, Ok};
ghost use Rattle.pricing.specs.Prices.{step_price, wire_price, Costs};

pub mod fault;
pub mod leg;

pub use fault::{StepFault, WireFault};
use grid::Shape;
pub use leg::Leg;
use tariff::Tariff;

// The step from one place to another and the cost at its end, where the wire costs so much up to its start.
pub fn price_step<T: Tariff>(
    shape: Shape,
    from: u32,
    to: u32,
    so_far: T::Cost,
) -> Result<Leg<T::Cost>, StepFault>
    ensures { result ≡ step_price T.Tariff.rates shape from to so_far }
{
    let step = shape.step(from, to).ok_or(StepFault::NotJoined)?;
    if !T::has(step) {
        return Err(StepFault::Lacked(step));
    }
    let cost = T::after(so_far, step).ok_or(StepFault::Refused(step))?;
    Ok(Leg { step, cost })
}

// What the wire through these places costs, or why they are none.
pub fn price<T: Tariff>(shape: Shape, wire: &[u32]) -> Result<T::Cost, WireFault>
    ensures is { result ≡ wire_price T.Tariff.rates shape wire.now }
    ensures wire { (c : T.Cost) → (result ≡ Ok c) ↔ Costs T.Tariff.rates shape wire.now c }
{
    let (start, rest) = wire.split_first().ok_or(WireFault::NoPlace)?;
    // The place before is carried by hand: a loop over pairs of neighbours would be proved of what its iterator has left, and
    // not of the number of the step.
    let mut from = *start;
    if from >= shape.places() {
        return Err(WireFault::OutsideShape(from));
    }
    let mut cost = T::nothing();
    for (i, to) in rest.iter().enumerate() {
        let at_step = |fault| WireFault::AtStep(i + 1, fault);
        let leg = price_step::<T>(shape, from, *to, cost).map_err(at_step)?;
        cost = leg.cost;
        from = *to;
    }
    Ok(cost)
}

// The octile tariff: straight steps, diagonals and vias, in numbers a + b√2.
#![tactic(auto)]

ghost use Rattle.std.specs.Prelude.{◌≡◌, refl};
ghost use Rattle.octile.specs.Octile.{WorkedCosts, octile_rates, octile_fits};
ghost use Rattle.octile.specs.OctileLaws.{octile_laws};

use grid::Step;
use surd::Surd;
use tariff::Tariff;

// A cost is a + b√2: 1 for each straight step, √2 for each diagonal and 8 for each via.
pub struct Octile;

// The largest a that a step may come to: straight steps and vias both raise it.
const A_LIMIT: u32 = 16_777_216;

// The largest b that a step may come to: diagonals raise it.
const B_LIMIT: u32 = 2_097_152;

// Whether neither part of a cost is past its limit.
fn fits(cost: Surd) -> bool
    ensures { result ≡ octile_fits cost }
{
    cost.a <= A_LIMIT && cost.b <= B_LIMIT
}

impl Tariff for Octile {
    type Cost = Surd;

    const SPAN: u32 = 8;

    ghost SPAN = { 8 };

    ghost rates = { octile_rates };

    ghost laws = { octile_laws };

    ghost span_is = { refl };

    fn nothing() -> Surd {
        Surd { a: 0, b: 0 }
    }

    // `<` of its own cost, as the rectilinear tariff's.
    fn less(a: Surd, b: Surd) -> bool {
        a < b
    }

    fn has(_step: Step) -> bool {
        true
    }

    fn after(cost: Surd, step: Step) -> Option<Surd> {
        // The kinds of step differ in nothing but which part they raise, and by how much.
        let mut next = cost;
        match step {
            Step::Straight => next.a = next.a.saturating_add(1),
            Step::Diagonal => next.b = next.b.saturating_add(1),
            Step::Via => next.a = next.a.saturating_add(8),
        }
        fits(next).then_some(next)
    }

    fn level(cost: Surd) -> u64 {
        cost.whole()
    }
}

// A few costs worked out: the contract says them, and the number that is answered says nothing.
pub fn worked_costs() -> u8
    ensures is { result ≡ 0 }
    ensures worked { WorkedCosts }
{
    0
}

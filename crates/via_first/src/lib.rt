// The via-first tariff: the path with the fewest vias, and among those the shortest.
#![tactic(auto)]

ghost use Rattle.std.specs.Prelude.{◌≡◌, true, ◌↔◌, Some, refl};
ghost use Rattle.via_first.specs.ViaFirst.{FewerViasOrShorter, counts_fit, via_first_rates, via_first_text};
ghost use Rattle.via_first.specs.ViaFirstLaws.{via_first_laws};

use grid::Step;
use std::fmt;
use surd::Surd;
use tariff::Tariff;

// The number of vias, and the a + b√2 of the other steps: 1 for a straight step and √2 for a diagonal.
#[derive(Clone, Copy, PartialEq, Eq, Debug)]
pub struct ViaFirstCost {
    pub vias: u32,
    pub rest: Surd,
}

impl fmt::Display for ViaFirstCost {
    ghost output = { λ c. Some (via_first_text c) };

    fn fmt<W: fmt::Write>(&self, f: &mut fmt::Formatter<W>) -> fmt::Result {
        let ViaFirstCost { vias, rest } = *self;
        write!(f, "{vias} vias {rest}")
    }
}

// The number of vias decides, then the rest.
pub struct ViaFirst;

// The largest count that a step may come to.
const LIMIT: u32 = 2_097_152;

// Whether no count of a cost is past the limit.
fn fits(cost: ViaFirstCost) -> bool
    ensures { result ≡ counts_fit cost }
{
    cost.vias <= LIMIT && cost.rest.a <= LIMIT && cost.rest.b <= LIMIT
}

impl Tariff for ViaFirst {
    type Cost = ViaFirstCost;

    const SPAN: u32 = 0;

    ghost SPAN = { 0 };

    ghost rates = { via_first_rates };

    ghost laws = { via_first_laws };

    ghost span_is = { refl };

    fn nothing() -> ViaFirstCost {
        ViaFirstCost {
            vias: 0,
            rest: Surd { a: 0, b: 0 },
        }
    }

    // A method that promises more than the interface says the interface's clause again.
    fn less(a: ViaFirstCost, b: ViaFirstCost) -> bool
        ensures is { result ≡ via_first_rates.less a b }
        ensures ordered { (result ≡ true) ↔ FewerViasOrShorter a b }
    {
        // By a derived order this would be a < b, but that takes half as long again.
        a.vias < b.vias || (a.vias == b.vias && a.rest.below(b.rest))
    }

    fn has(_step: Step) -> bool {
        true
    }

    fn after(cost: ViaFirstCost, step: Step) -> Option<ViaFirstCost> {
        // The kinds of step differ in nothing but which count they raise.
        let mut next = cost;
        match step {
            Step::Straight => next.rest.a = next.rest.a.saturating_add(1),
            Step::Diagonal => next.rest.b = next.rest.b.saturating_add(1),
            Step::Via => next.vias = next.vias.saturating_add(1),
        }
        fits(next).then_some(next)
    }

    fn level(_cost: ViaFirstCost) -> u64 {
        0
    }
}

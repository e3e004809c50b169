// What a path costs: the interface of all tariffs, with its laws.
#![tactic(auto)]

ghost use Rattle.std.specs.Prelude.{◌≡◌, ℕ};
ghost use Rattle.tariff.specs.Rates.{Rates, Laws};

use grid::Step;

// A tariff has its own kind of cost, and says what steps make of one.
pub trait Tariff {
    // What a path may cost.
    type Cost: Copy;

    // The largest rise of the level by one step, or 0 where costs have no levels.
    const SPAN: u32;

    // The same number, for contracts.
    ghost SPAN: { ℕ };

    // The cost nothing, the order, the steps that the tariff has, what each makes of a cost, the level and the span.
    ghost rates: { Rates (Self.Cost) };

    // The cost of a path of no steps.
    fn nothing() -> Self::Cost
        ensures { result ≡ rates.nothing };

    // Whether a is below b. The tariff says it and not the type, since two tariffs may charge in the same numbers.
    fn less(a: Self::Cost, b: Self::Cost) -> bool
        ensures { result ≡ rates.less a b };

    // Whether paths may have such steps.
    fn has(step: Step) -> bool
        ensures { result ≡ rates.has step };

    // What a step makes of a cost; none where the step is refused.
    fn after(cost: Self::Cost, step: Step) -> Option<Self::Cost>
        ensures { result ≡ rates.after cost step };

    // The whole number that stands for a cost where the span is not 0.
    fn level(cost: Self::Cost) -> u64
        ensures { result ≡ rates.level cost };

    // What generic code may count on.
    ghost laws: { Laws rates };

    // SPAN is the span of the rates.
    ghost span_is: { SPAN ≡ rates.span };

    // SPAN again, as a call whose contract says that it is the span of the rates: code then need not cite the law.
    final fn max_rise() -> u32
        ensures { result ≡ rates.span }
    {
        Self::SPAN
    }
}

// The numbers a + b√2: their order, and their whole parts.
#![tactic(auto)]

ghost use Rattle.std.specs.Cmp.{partial_order_from_agreeing_total};
ghost use Rattle.std.specs.Ordering.{as_partial_cmp};
ghost use Rattle.std.specs.Prelude.{◌≡◌, true, ◌↔◌, Some, refl};
ghost use Rattle.surd.specs.OrderLaws.{order_ties, order_total};
ghost use Rattle.surd.specs.Surds.{Separated, excess, is_below, order, whole_of, written};

use std::cmp::Ordering;
use std::fmt;

mod table;
mod whole;

pub use whole::whole_part;

// The number a + b√2.
#[derive(Clone, Copy, PartialEq, Eq, Debug)]
pub struct Surd {
    pub a: u32,
    pub b: u32,
}

impl Surd {
    // The square of the difference in a, and twice that of the difference in b, each where this number has more.
    fn excess_over(self, other: Surd) -> u128
        ensures { result ≡ excess self other }
    {
        let a = u128::from(self.a.saturating_sub(other.a));
        let b = u128::from(self.b.saturating_sub(other.b));
        a * a + 2 * (b * b)
    }

    // Whether the number is less than the other. The same as `<`, and the place where the contract says what that is of
    // real numbers.
    #[tactic(auto, using(crate::proofs::Separation::less_rules))]
    pub fn below(self, other: Surd) -> bool
        ensures is { result ≡ is_below self other }
        ensures real { (result ≡ true) ↔ Separated self other }
    {
        self < other
    }

    // The greatest whole number that is not past this one.
    pub fn whole(self) -> u64
        ensures { result ≡ whole_of self }
    {
        u64::from(self.a) + whole_part(self.b)
    }
}

// The one of two numbers that exceeds the other by more is the greater.
impl Ord for Surd {
    ghost cmp = { order };

    ghost total = { order_total };

    ghost matches_partial_cmp = { λ x y. refl };

    ghost matches_eq = { order_ties };

    fn cmp(&self, other: &Surd) -> Ordering {
        self.excess_over(*other).cmp(&other.excess_over(*self))
    }
}

impl PartialOrd for Surd {
    ghost partial_cmp = { as_partial_cmp order };

    ghost laws = { partial_order_from_agreeing_total order order_total (λ x y. refl) order_ties };

    fn partial_cmp(&self, other: &Surd) -> Option<Ordering> {
        Some(self.cmp(other))
    }
}

// Written as the pair of its parts, (a, b).
impl fmt::Display for Surd {
    ghost output = { λ x. Some (written x) };

    fn fmt<W: fmt::Write>(&self, f: &mut fmt::Formatter<W>) -> fmt::Result {
        let Surd { a, b } = *self;
        write!(f, "({a}, {b})")
    }
}

// Fronts: the places that wait in a wave, each at a cost.
#![tactic(auto)]

ghost use Rattle.std.specs.Prelude.{◌≡◌, true, ◌&&◌, nat_le};
ghost use Rattle.front.specs.Queue.{Queue, Starts, Puts, Takes, offer};
ghost use Rattle.front.specs.Counts.{CountsFollow};

use grid::Step;
use tariff::Tariff;

// A place that was taken, and the cost at which it waited.
#[derive(Clone, Copy, PartialEq, Eq, Debug)]
pub struct Taken<C> {
    pub place: u32,
    pub cost: C,
}

// A front keeps the waiting places of a wave. Whatever its list held before, `start` makes it ready.
pub trait Front<T: Tariff> {
    // Which places wait at what cost, the cost taken last, how many places are served, and the spans of the tariffs served.
    ghost view: { Self → Queue (T.Cost) };

    // The inner order of what waits, which depends on the tariff. Making and start set it up, put and take keep it.
    ghost ordered: { Self → Type 0 };

    // Whether the tariff and so many places are served.
    fn serves(&self, places: u32) -> bool
        ensures { result ≡ (view self.now).spans T.Tariff.rates.span && nat_le places (view self.now).served };

    // Empties the front and lets one place wait at nothing; no, where the place or the tariff is not served.
    fn start(&mut self, place: u32) -> bool
        ensures acts { Starts T.Tariff.rates place (view self.old) (view self.new) result }
        ensures ready { result ≡ true → ordered self.new }
        ensures kept { ordered self.old → ordered self.new };

    // Offers a place at the cost taken last and one step; no, where the place is not served, nothing was taken since start,
    // or the tariff lacks or refuses the step.
    fn put(&mut self, place: u32, step: Step) -> bool
        requires { ordered self.old }
        ensures acts { Puts T.Tariff.rates place step (view self.old) (view self.new) result }
        ensures kept { ordered self.new };

    // Removes a waiting place, whose cost is less than what any step makes of any waiting cost; none, where nothing waits.
    fn take(&mut self) -> Option<Taken<T::Cost>>
        requires { ordered self.old }
        ensures acts { Takes T.Tariff.rates (view self.old) (view self.new) result }
        ensures kept { ordered self.new };
}

// What a step makes of the cost taken last; none where there is no such cost, or the tariff lacks or refuses the step.
// A step that a tariff lacks is refused, so the step itself is not asked for.
pub fn cost_offered<T: Tariff>(last: Option<T::Cost>, step: Step) -> Option<T::Cost>
    ensures { result ≡ offer T.Tariff.rates last step }
{
    last.and_then(|last| T::after(last, step))
}

// The number of waiting places follows the calls: 1 after a start, one fewer after a take, at most one more after a put. The
// answer says nothing: the function is there for its contract, and an edit that must fail changes it.
pub fn counts_follow<C: Copy>() -> bool
    ensures is { result ≡ true }
    ensures counts { CountsFollow C }
{
    true
}

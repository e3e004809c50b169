// The trace as an iterator over places.
ghost use Rattle.std.specs.Prelude.{◌≡◌};
ghost use Rattle.std.specs.Iterator.{YieldsFirst, item_count};
ghost use Rattle.route.specs.Hops.{around};
ghost use Rattle.route.specs.Paths.{label_of};
ghost use Rattle.route.specs.Search.{onward};
ghost use Rattle.route.specs.Wire.{is_cost, first, back};
ghost use Rattle.trace.specs.Walk.{place_of, accounting_for, places_left, Begun, ways};

use grid::{Direction, Shape, Site, Step, directions};
use sheet::{Ground, check_entries};
use tariff::Tariff;
use wave::{Connection, SearchFault, label_at};

// The places of a wire, traced back from the goal over labels. It is a type of its own since `begin` returns it: `successors` over
// a closure gives places in the same way, and a function can't name the closure's type as its result.
#[derive(Drop)]
pub(crate) struct Trace<'a, T: Tariff> {
    shape: Shape,
    start: u32,
    labels: &'a [Option<T::Cost>],
    // the place that comes next, if one does
    place: Option<u32>,
    // how many steps may still be taken from it
    steps: u32,
}

// Whether a label followed by a step comes to a cost. A step that the tariff lacks is refused.
fn comes_to<T: Tariff>(label: Option<T::Cost>, by: Step, cost: T::Cost) -> bool
    ensures { result ≡ is_cost T.rates (onward T.rates label by) cost }
{
    label
        .and_then(|there| T::after(there, by))
        .is_some_and(|made| !T::less(made, cost) && !T::less(cost, made))
}

impl<'a, T: Tariff> Trace<'a, T> {
    // The neighbour in a direction, if it accounts for a cost.
    fn accounting(&self, site: Site, direction: Direction, cost: T::Cost) -> Option<u32>
        ensures { result ≡ accounting_for T.rates (label_of self.now.labels.now) cost site.shape site.place direction }
    {
        site.neighbour(direction).filter(|place| {
            comes_to::<T>(label_at(self.labels, *place), direction.step(), cost)
        })
    }

    // The first neighbour of a place, in the trace-back order, that accounts for a cost.
    fn first_around(&self, place: u32, cost: T::Cost) -> Option<u32>
        ensures { result ≡ place_of (first T.rates (label_of self.now.labels.now) cost (around self.now.shape place)) }
    {
        let site = self.shape.site(place)?;
        directions()
            .iter()
            .find_map(|direction| self.accounting(site, *direction, cost))
    }

    // The place before a place: none before the start, nor where no neighbour accounts for the place's cost.
    fn before(&self, place: u32) -> Option<u32>
        ensures { result ≡ place_of (back T.rates (ways self.now.shape self.now.start) (label_of self.now.labels.now) place) }
    {
        if place == self.start {
            return None;
        }
        let cost = label_at(self.labels, place)?;
        self.first_around(place, cost)
    }
}

impl<'a, T: Tariff> Iterator for Trace<'a, T> {
    type Item = u32;

    ghost next_gives = { YieldsFirst (places_left T.rates) };

    ghost remaining = { item_count (places_left T.rates) };

    fn next(&mut self) -> Option<u32> {
        let place = self.place?;
        self.place = if self.steps == 0 {
            None
        } else {
            self.before(place)
        };
        self.steps = self.steps.saturating_sub(1);
        Some(place)
    }
}

// The trace from the goal over the labels of the board's places, if there is a label for each (2).
pub(crate) fn begin<'a, G: Ground, T: Tariff>(
    area: &G,
    connection: Connection,
    labels: &'a [Option<T::Cost>],
) -> Result<Trace<'a, T>, SearchFault>
    ensures { Begun T.rates (G.meaning area.now) connection labels.now result }
{
    let shape = area.shape();
    check_entries(shape, labels.len())?;
    Ok(Trace {
        shape,
        start: connection.start,
        labels: &labels[..shape.places() as usize],
        place: Some(connection.goal),
        // No wire of a board has more steps.
        steps: 2_097_152,
    })
}

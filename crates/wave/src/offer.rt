// The offers that a place makes to its neighbours once it is taken.
ghost use Rattle.std.specs.Prelude.{◌≡◌, ◌<◌, ◌≤◌, length};
ghost use Rattle.grid.specs.Places.{count_of};
ghost use Rattle.route.specs.Hops.{hop, around};
ghost use Rattle.wave.specs.Offers.{Offers, OffersAll};

use front::Front;
use grid::{Shape, Step, directions};
use sheet::Ground;
use tariff::Tariff;

// The board as offers find it: which places are open to the net, and a label for each place. The front stands beside it, with
// its inner order as the condition that its calls have: a board that held the front and the list by `&mut` would have to
// promise, with each method, that it holds the same ones and leaves all but the front as it was.
#[derive(Drop)]
pub(crate) struct Board<'a, G, T: Tariff> {
    pub(crate) area: &'a G,
    pub(crate) net: u16,
    pub(crate) shape: Shape,
    pub(crate) labels: &'a [Option<T::Cost>],
    ghost sized: { length labels.now ≡ count_of shape },
}

impl<'a, G: Ground, T: Tariff> Board<'a, G, T> {
    // Offers a place a step from the place that was taken last, if it has no label and is open to the net.
    fn offer<F: Front<T>>(&self, to: u32, by: Step, front: &mut F)
        requires inside { to < count_of self.now.shape }
        requires served { count_of self.now.shape ≤ (F.view front.old).served }
        requires order { F.ordered front.old }
        ensures order { F.ordered front.new }
        ensures offers { Offers T.rates (G.meaning self.now.area.now) self.now.net self.now.labels.now (F.view front.old) (F.view front.new) (hop by to) }
    {
        if self.labels[to as usize].is_none() && self.area.is_open(to, self.net) {
            let _ = front.put(to, by);
        }
    }

    // Offers each neighbour of the place that was taken last.
    pub(crate) fn offer_around<F: Front<T>>(&self, place: u32, front: &mut F)
        requires inside { place < count_of self.now.shape }
        requires served { count_of self.now.shape ≤ (F.view front.old).served }
        requires order { F.ordered front.old }
        ensures order { F.ordered front.new }
        ensures offers { OffersAll T.rates (G.meaning self.now.area.now) self.now.net self.now.labels.now (F.view front.old) (F.view front.new) (around self.now.shape place) }
    {
        if let Some(site) = self.shape.site(place) {
            for direction in directions() {
                if let Some(to) = site.neighbour(direction) {
                    self.offer(to, direction.step(), front);
                }
            }
        }
    }
}

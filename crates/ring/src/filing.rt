// Places that come into rows and leave them. The inner order stands in each contract: it depends on the tariff, which the type
// does not name.
ghost use Rattle.std.specs.Prelude.{◌≡◌, ◌+◌, ◌<◌, ◌≤◌, length, Some, None};
ghost use Rattle.front.specs.Places.{room, Waits, Offers};
ghost use Rattle.rows.specs.Rows.{base, filed, Within};
ghost use Rattle.ring.specs.Rings.{view_of, InOrder, Emptied};

use super::Ring;
use super::records::{enter, in_use, link, set_cost, unlink};
use tariff::Tariff;

impl<'a, C: Copy> Ring<'a, C> {
    // The cost at which a place waits.
    pub(super) fn waiting_at(&self, place: u32) -> Option<C>
        requires few { self.now.touched ≤ room (length self.now.list.now) }
        requires inside { place + 1 < length self.now.list.now }
        ensures { result ≡ (view_of self.now).waiting place }
    {
        if in_use(self.list, self.touched, place) {
            self.list[place as usize + 1].cost
        } else {
            None
        }
    }

    // Lets no place wait, in so many rows.
    pub(super) fn clear(&mut self, rows: u64)
        ensures emptied { Emptied self.new rows }
        ensures list { self.new.list.now ≡ self.old.list.now }
    {
        self.touched = 0;
        self.rows = rows;
        self.heads = [None; 32];
        self.last = None;
    }

    // Lets a place wait at a cost, first in its row.
    pub(super) fn join<T: Tariff<Cost = C>>(&mut self, place: u32, cost: C)
        requires order { InOrder T.Tariff.rates self.old }
        requires inside { place + 1 < length self.old.list.now }
        requires free { (view_of self.old).waiting place ≡ None }
        requires near { Within T.Tariff.rates self.old.rows (base T.Tariff.rates self.old.last) cost }
        ensures order { InOrder T.Tariff.rates self.new }
        ensures change { Waits (view_of self.old) (view_of self.new) place (Some cost) }
    {
        let row = self.row_of::<T>(cost);
        let head = self.heads[row];
        let touched = self.touched;
        self.touched = enter(self.list, touched, place, cost);
        link(self.list, head, place);
        self.heads[row] = Some(place);
    }

    // Lets a place of a row wait no more.
    pub(super) fn leave<T: Tariff<Cost = C>>(&mut self, row: usize, place: u32)
        requires order { InOrder T.Tariff.rates self.old }
        requires filed { filed T.Tariff.rates self.old.rows (view_of self.old).waiting place ≡ Some row }
        ensures order { InOrder T.Tariff.rates self.new }
        ensures change { Waits (view_of self.old) (view_of self.new) place None }
        ensures rows { self.new.rows ≡ self.old.rows }
    {
        let head = self.heads[row];
        self.heads[row] = unlink(self.list, head, place);
        set_cost(self.list, place, None);
    }

    // Lets a place wait no more, if it waits.
    fn withdraw<T: Tariff<Cost = C>>(&mut self, place: u32, old: Option<C>)
        requires order { InOrder T.Tariff.rates self.old }
        requires waits { old ≡ (view_of self.old).waiting place }
        ensures order { InOrder T.Tariff.rates self.new }
        ensures change { Waits (view_of self.old) (view_of self.new) place None }
        ensures rows { self.new.rows ≡ self.old.rows }
    {
        if let Some(before) = old {
            let row = self.row_of::<T>(before);
            self.leave::<T>(row, place);
        }
    }

    // Lets a place wait at a cost, unless it waits at one that is not greater.
    pub(super) fn offer<T: Tariff<Cost = C>>(&mut self, place: u32, cost: C)
        requires order { InOrder T.Tariff.rates self.old }
        requires inside { place + 1 < length self.old.list.now }
        requires near { Within T.Tariff.rates self.old.rows (base T.Tariff.rates self.old.last) cost }
        ensures order { InOrder T.Tariff.rates self.new }
        ensures change { Offers T.Tariff.rates (view_of self.old) (view_of self.new) place cost }
    {
        let old = self.waiting_at(place);
        if old.is_none_or(|before| T::less(cost, before)) {
            self.withdraw::<T>(place, old);
            self.join::<T>(place, cost);
        }
    }
}

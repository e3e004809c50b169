// A ground drawn with one byte a place.
ghost use Rattle.std.specs.Prelude.{◌≡◌};
ghost use Rattle.model.proofs.DrawnLaws.{drawn_sound};
ghost use Rattle.model.specs.Drawn.{drawn_ground};

use super::entries::entries_served;
use grid::Shape;
use sheet::{Ground, is_net};

// A ground over a lent list of one byte a place: 0 is open to all nets, any other byte is closed. Nothing is open on a
// list that has fewer entries than there are places.
#[derive(Clone, Copy)]
pub struct Drawing<'a> {
    shape: Shape,
    cells: &'a [u8],
}

impl<'a> Drawing<'a> {
    pub fn new(shape: Shape, cells: &'a [u8]) -> Drawing<'a>
        ensures shaped { result.shape ≡ shape }
        ensures drawn { result.cells.now ≡ cells.now }
    {
        Drawing { shape, cells }
    }
}

impl<'a> Ground for Drawing<'a> {
    ghost meaning = { λ s. drawn_ground s.shape s.cells.now };

    ghost sound = { λ s. drawn_sound s.shape s.cells.now };

    // As the wide sheet's: each answers a field of its own.
    fn shape(&self) -> Shape {
        self.shape
    }

    fn is_open(&self, place: u32, net: u16) -> bool {
        is_net(net)
            && entries_served(self.shape, self.cells)
                .get(place as usize)
                .is_some_and(|cell| *cell == 0)
    }
}

// The questions that all sheets, and all who search on a ground, ask first.
ghost use Rattle.std.specs.Prelude.{◌≡◌, Ok, ◌==◌, nat_le, nat_lt};
ghost use Rattle.grid.specs.Faults.{refusal};
ghost use Rattle.grid.specs.Places.{count_of};
ghost use Rattle.model.specs.Sheets.{answered, ask, is_net};

use super::{Ground, Sheet};
use grid::{Shape, SheetFault};

// The copper of a place that is bare. Copper is a 16-bit number, as it is laid down: its two numbers that are no net's have
// names. The nets are the numbers between it and that of a barred place.
pub const BARE: u16 = 0;

// The copper of a place that is barred.
pub const BARRED: u16 = 65535;

// Whether a number is a net's, 1 to 65,534.
pub fn is_net(net: u16) -> bool
    ensures { result ≡ is_net net }
{
    (BARE + 1..BARRED).contains(&net)
}

// Asks whether the number is a net's (4).
pub fn check_net(net: u16) -> Result<(), SheetFault>
    ensures { answered result ≡ ask (is_net net) (refusal 4 net) (Ok tt) }
{
    if is_net(net) {
        Ok(())
    } else {
        Err(SheetFault::NoNet(u32::from(net)))
    }
}

// Asks whether the place is in the shape (3).
pub fn check_place(shape: Shape, place: u32) -> Result<(), SheetFault>
    ensures { answered result ≡ ask (nat_lt place (count_of shape)) (refusal 3 place) (Ok tt) }
{
    if place < shape.places() {
        Ok(())
    } else {
        Err(SheetFault::OutsideShape(place))
    }
}

// Asks whether a list of so many entries has one for each place (2).
pub fn check_entries(shape: Shape, entries: usize) -> Result<(), SheetFault>
    ensures { answered result ≡ ask (nat_le (count_of shape) entries) (refusal 2 (count_of shape)) (Ok tt) }
{
    let places = shape.places();
    if entries >= places as usize {
        Ok(())
    } else {
        Err(SheetFault::ShortList(places))
    }
}

// Asks whether the place is open to the net (5).
pub fn check_open<G: Ground>(area: &G, place: u32, net: u16) -> Result<(), SheetFault>
    ensures { answered result ≡ ask ((G.meaning area.now).opened place net) (refusal 5 place) (Ok tt) }
{
    if area.is_open(place, net) {
        Ok(())
    } else {
        Err(SheetFault::Closed(place))
    }
}

// Whether a place is bare. There is no copper outside the shape.
pub fn is_bare<S: Sheet>(sheet: &S, place: u32) -> bool
    ensures { result ≡ ((S.board sheet.now).metal.copper place == 0) }
{
    sheet.copper(place).unwrap_or(BARE) == BARE
}

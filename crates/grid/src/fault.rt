// Why a shape or a sheet refuses.
ghost use Rattle.std.specs.Prelude.{◌≡◌, Some};
ghost use Rattle.grid.specs.Faults.{sheet_refusal};
ghost use Rattle.grid.specs.Texts.{refusal_text};

use std::fmt;

// Each case has a number and names a value.
#[derive(Clone, Copy, PartialEq, Eq, Debug)]
pub enum SheetFault {
    // 1: a shape or a rectangle is past its limits; names 0
    PastLimits,
    // 2: a list is too short; names the entries needed
    ShortList(u32),
    // 3: the place is not in the shape; names the place
    OutsideShape(u32),
    // 4: the number is no net's, 1 to 65,534; names the number
    NoNet(u32),
    // 5: the place is not open to the net; names the place
    Closed(u32),
    // 6: there is not enough spare; names how many bare places there are to cover
    NoSpare(u32),
    // 7: the place is not bare; names the place
    NotBare(u32),
    // 8: the place carries no net; names the place
    CarriesNone(u32),
}

impl SheetFault {
    // The number and the value. Each refusal of the router has one of each, by definition.
    pub fn refusal(self) -> (u32, u32)
        ensures number { result.0 ≡ (sheet_refusal self).number }
        ensures named { result.1 ≡ (sheet_refusal self).named }
    {
        match self {
            SheetFault::PastLimits => (1, 0),
            SheetFault::ShortList(entries) => (2, entries),
            SheetFault::OutsideShape(place) => (3, place),
            SheetFault::NoNet(number) => (4, number),
            SheetFault::Closed(place) => (5, place),
            SheetFault::NoSpare(bare) => (6, bare),
            SheetFault::NotBare(place) => (7, place),
            SheetFault::CarriesNone(place) => (8, place),
        }
    }

    // The number of the refusal. This, the next and `fmt` read as those of a search's faults: each reads one part of its own
    // refusal.
    pub fn number(self) -> u32
        ensures { result ≡ (sheet_refusal self).number }
    {
        self.refusal().0
    }

    // The value that the refusal names.
    pub fn named(self) -> u32
        ensures { result ≡ (sheet_refusal self).named }
    {
        self.refusal().1
    }
}

// Written as the number and the value, with a space between.
impl fmt::Display for SheetFault {
    ghost output = { λ fault. Some (refusal_text (sheet_refusal fault)) };

    fn fmt<W: fmt::Write>(&self, f: &mut fmt::Formatter<W>) -> fmt::Result {
        let (number, named) = self.refusal();
        write!(f, "{number} {named}")
    }
}

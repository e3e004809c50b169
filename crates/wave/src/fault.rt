// Why a search refuses.
ghost use Rattle.std.specs.Prelude.{◌≡◌, Some};
ghost use Rattle.grid.specs.Texts.{refusal_text};
ghost use Rattle.wave.specs.declared.fault.SearchFault.TheVariants.{Sheet};
ghost use Rattle.wave.specs.Questions.{search_refusal};

use grid::SheetFault;
use std::fmt;

// Each case has a number and names a value. A fault of the sheet travels whole inside it.
#[derive(Clone, Copy, PartialEq, Eq, Debug)]
pub enum SearchFault {
    // 1 to 8
    Sheet(SheetFault),
    // 9: the front does not serve the tariff or so many places; names the board's places
    NotServed(u32),
    // 10: there is no legal path; names the goal
    NoPath(u32),
    // 11: the path list does not hold the wire; names the wire's places
    ShortPath(u32),
}

impl SearchFault {
    // The number and the value. A fault of the sheet keeps its own.
    fn refusal(self) -> (u32, u32)
        ensures number { result.0 ≡ (search_refusal self).number }
        ensures named { result.1 ≡ (search_refusal self).named }
    {
        match self {
            SearchFault::Sheet(fault) => fault.refusal(),
            SearchFault::NotServed(places) => (9, places),
            SearchFault::NoPath(goal) => (10, goal),
            SearchFault::ShortPath(places) => (11, places),
        }
    }

    // The number of the refusal. This, the next and `fmt` read as those of SheetFault: each reads one part of its own refusal.
    pub fn number(self) -> u32
        ensures { result ≡ (search_refusal self).number }
    {
        self.refusal().0
    }

    // The value that the refusal names.
    pub fn named(self) -> u32
        ensures { result ≡ (search_refusal self).named }
    {
        self.refusal().1
    }
}

impl From<SheetFault> for SearchFault {
    ghost from_gives = { λ f r. r ≡ Sheet f };

    fn from(fault: SheetFault) -> SearchFault {
        SearchFault::Sheet(fault)
    }
}

// Written as the number and the value, with a space between.
impl fmt::Display for SearchFault {
    ghost output = { λ fault. Some (refusal_text (search_refusal fault)) };

    fn fmt<W: fmt::Write>(&self, f: &mut fmt::Formatter<W>) -> fmt::Result {
        let (number, named) = self.refusal();
        write!(f, "{number} {named}")
    }
}

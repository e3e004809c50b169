// Lists that have one entry a place.
ghost use Rattle.std.specs.Prelude.{◌≡◌, take};
ghost use Rattle.model.specs.Entries.{served, entries_answer};
ghost use Rattle.model.specs.Sheets.{answered};

use grid::{Shape, SheetFault};

// Asks, before a drawing or a sheet is made on a list, whether the list has an entry for each place (2).
pub fn check_entries<E>(shape: Shape, list: &[E]) -> Result<(), SheetFault>
    ensures { answered result ≡ entries_answer shape list.now }
{
    sheet::check_entries(shape, list.len())
}

// The entries that serve places: one for each place, or none if the list has fewer.
pub(crate) fn entries_served<E>(shape: Shape, list: &[E]) -> &[E]
    ensures { result.now ≡ take (served shape list.now) list.now }
{
    list.get(..shape.places() as usize).unwrap_or(&[])
}

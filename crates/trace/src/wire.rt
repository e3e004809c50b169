// The wire to a goal, traced back over labels: its places counted and written. The three public calls take the same loans, as
// the subject lists them; `begin` makes the trace of them.
ghost use Rattle.std.specs.Prelude.{◌≡◌, ◌≤◌, reverse, count_by, length, Ok, ◌==◌};
ghost use Rattle.model.specs.Paths.{bare_entries};
ghost use Rattle.wave.specs.Questions.{search_answered, unless, refused_by};
ghost use Rattle.trace.specs.Trace.{traced, trace_answer, room_asks, write_answer, path_after, AfterSearch};
ghost use Rattle.trace.specs.Walk.{places_left};

use super::walk::{Trace, begin};
use sheet::{Ground, Sheet, is_bare};
use tariff::Tariff;
use wave::{Connection, SearchFault};

// How many places a trace gives.
fn count<T: Tariff>(trace: Trace<'_, T>) -> u32
    requires { length (places_left T.rates trace) ≤ 2097153 }
    ensures { result ≡ length (places_left T.rates trace.entry) }
{
    trace.count() as u32
}

// How many places the wire has that is traced back over the labels from the goal. Asks whether there is a label for each
// place (2).
pub fn wire_length<G: Ground, T: Tariff>(
    area: &G,
    connection: Connection,
    labels: &[Option<T::Cost>],
) -> Result<u32, SearchFault>
    ensures answer { search_answered result ≡ trace_answer (G.meaning area.now) (length labels.now) (length (traced T.rates (G.meaning area.now) connection labels.now)) }
    ensures wire { AfterSearch T.rates (G.meaning area.now) connection labels.now (λ ps. search_answered result ≡ trace_answer (G.meaning area.now) (length labels.now) (length ps)) }
{
    let trace = begin::<G, T>(area, connection, labels)?;
    Ok(count(trace))
}

// How many places that a trace gives are bare.
fn count_bare<S: Sheet, T: Tariff>(sheet: &S, trace: Trace<'_, T>) -> u32
    requires { length (places_left T.rates trace) ≤ 2097153 }
    ensures { result ≡ count_by (λ place. (S.board sheet.now).metal.copper place == 0) (places_left T.rates trace.entry) }
{
    trace.filter(|place| is_bare(sheet, *place)).count() as u32
}

// How many places of the wire that is traced back over the labels from the goal are bare on the sheet. Asks whether there
// is a label for each place (2).
pub fn wire_bare<S: Sheet, T: Tariff>(
    sheet: &S,
    connection: Connection,
    labels: &[Option<T::Cost>],
) -> Result<u32, SearchFault>
    ensures answer { search_answered result ≡ trace_answer (S.meaning sheet.now) (length labels.now) (bare_entries (S.board sheet.now) (traced T.rates (S.meaning sheet.now) connection labels.now)) }
    ensures wire { AfterSearch T.rates (S.meaning sheet.now) connection labels.now (λ ps. search_answered result ≡ trace_answer (S.meaning sheet.now) (length labels.now) (bare_entries (S.board sheet.now) ps)) }
{
    let trace = begin::<S, T>(sheet, connection, labels)?;
    Ok(count_bare(sheet, trace))
}

// Asks whether a list has room for so many places (11).
fn check_room(places: u32, room: usize) -> Result<(), SearchFault>
    ensures { search_answered result ≡ unless (refused_by (room_asks places room)) (Ok tt) }
{
    if room >= places as usize {
        Ok(())
    } else {
        Err(SearchFault::ShortPath(places))
    }
}

// Writes the places that a trace gives, the last one first. By index: over `path.iter_mut().rev()`, with `zip` or with `next`,
// what the function ensures stayed open, since a proof then knows the length of the path and none of its entries.
fn write_back<T: Tariff>(trace: Trace<'_, T>, path: &mut [u32])
    requires { length path.old ≡ length (places_left T.rates trace) }
    ensures { path.new ≡ reverse (places_left T.rates trace.entry) }
{
    for (index, place) in (0..path.len()).rev().zip(trace) {
        path[index] = place;
    }
}

// Writes the wire that is traced back over the labels from the goal to the front of a path list, from the start to the goal,
// and answers how many places it has. Asks whether there is a label for each place (2) and the list has room for the
// wire (11).
pub fn write_wire<G: Ground, T: Tariff>(
    area: &G,
    connection: Connection,
    labels: &[Option<T::Cost>],
    path: &mut [u32],
) -> Result<u32, SearchFault>
    ensures answer { search_answered result ≡ write_answer (G.meaning area.now) (length labels.now) (traced T.rates (G.meaning area.now) connection labels.now) (length path.old) }
    ensures after { path.new ≡ path_after (G.meaning area.now) (length labels.now) (traced T.rates (G.meaning area.now) connection labels.now) path.old }
    ensures wire { AfterSearch T.rates (G.meaning area.now) connection labels.now (λ ps. (search_answered result ≡ write_answer (G.meaning area.now) (length labels.now) ps (length path.old)) × (path.new ≡ path_after (G.meaning area.now) (length labels.now) ps path.old)) }
{
    let places = wire_length::<G, T>(area, connection, labels)?;
    check_room(places, path.len())?;
    let trace = begin::<G, T>(area, connection, labels)?;
    write_back(trace, &mut path[..places as usize]);
    Ok(places)
}

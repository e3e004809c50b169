// The wave, and the search that stops at a goal.
ghost use Rattle.std.specs.Prelude.{◌≡◌, true, length, Ok};
ghost use Rattle.grid.specs.Places.{count_of};
ghost use Rattle.route.specs.Paths.{maze, LabelsAreLeast, WireIsWire};
ghost use Rattle.wave.specs.Spread.{Spread};
ghost use Rattle.wave.specs.Questions.{search_answered, unless, refused_by, serves, start_asks, wave_asks, wave_answer, WaveLeaves, search_asks, search_answer, SearchLeaves};

use super::connection::Connection;
use super::fault::SearchFault;
use super::labels::label_at;
use super::offer::Board;
use front::Front;
use sheet::{Ground, check_entries, check_net, check_open, check_place};
use tariff::Tariff;

// Takes every label away and lets the start wait, then takes what waits and labels it, until nothing waits or the goal is
// taken; how many places that is. The front stands beside the board here too, for the reason in offer.rt. A front is no
// iterator: `take` has the front's order as its condition, and an iterator's `next` has none.
fn spread<G: Ground, T: Tariff, F: Front<T>>(
    area: &G,
    net: u16,
    start: u32,
    goal: Option<u32>,
    labels: &mut [Option<T::Cost>],
    front: &mut F,
) -> u32
    requires sized { length labels.old ≡ count_of (G.meaning area.now).shape }
    requires served { serves T.rates (G.meaning area.now) (F.view front.old) ≡ true }
    requires free { (G.meaning area.now).opened start net ≡ true }
    ensures { Spread T.rates (maze (G.meaning area.now) net start) goal labels.new result }
{
    let shape = area.shape();
    labels.fill(None);
    let _ = front.start(start);
    let mut count = 0;
    while let Some(found) = front.take() {
        labels[found.place as usize] = Some(found.cost);
        count += 1;
        if goal == Some(found.place) {
            return count;
        }
        let board = Board {
            area,
            net,
            shape,
            labels,
        };
        board.offer_around(found.place, front);
    }
    count
}

// Asks whether there is a label for each place (2), the front serves the tariff and the places (9), and the start is open to
// the net (5). This and the next two checks take the length alone, so that the labels stay lent to the caller.
fn check_start<G: Ground, T: Tariff, F: Front<T>>(
    area: &G,
    net: u16,
    start: u32,
    entries: usize,
    front: &F,
) -> Result<(), SearchFault>
    ensures { search_answered result ≡ unless (refused_by (start_asks T.rates (G.meaning area.now) (F.view front.now) net start entries)) (Ok tt) }
{
    let shape = area.shape();
    check_entries(shape, entries)?;
    if !front.serves(shape.places()) {
        return Err(SearchFault::NotServed(shape.places()));
    }
    Ok(check_open(area, start, net)?)
}

// Asks what a wave asks: whether the net is one (4), the start is in the shape (3), and the questions of a start.
fn check_wave<G: Ground, T: Tariff, F: Front<T>>(
    area: &G,
    net: u16,
    start: u32,
    entries: usize,
    front: &F,
) -> Result<(), SearchFault>
    ensures { search_answered result ≡ unless (refused_by (wave_asks T.rates (G.meaning area.now) (F.view front.now) net start entries)) (Ok tt) }
{
    check_net(net)?;
    check_place(area.shape(), start)?;
    check_start::<G, T, F>(area, net, start, entries, front)
}

// Labels every place with its least cost for the net from the start, or none where there is no legal path, and answers how
// many places have one. Asks whether the net is one (4), the start is in the shape (3), there is a label a place (2), the
// front serves the tariff and the places (9), and the start is open to the net (5).
pub fn wave<G: Ground, T: Tariff, F: Front<T>>(
    area: &G,
    net: u16,
    start: u32,
    labels: &mut [Option<T::Cost>],
    front: &mut F,
) -> Result<u32, SearchFault>
    ensures answer { search_answered result ≡ wave_answer T.rates (G.meaning area.now) (F.view front.old) net start (length labels.old) }
    ensures least { LabelsAreLeast T.rates }
    ensures after { WaveLeaves T.rates (G.meaning area.now) net start labels.old labels.new front.old front.new result }
{
    check_wave::<G, T, F>(area, net, start, labels.len(), front)?;
    // The part of the labels that has the places is cut here, since the contract speaks of the whole list.
    let places = area.shape().places() as usize;
    let board = &mut labels[..places];
    Ok(spread::<G, T, F>(area, net, start, None, board, front))
}

// Asks what a search asks: the questions of a start, and whether the goal is open to the net (5).
fn check_search<G: Ground, T: Tariff, F: Front<T>>(
    area: &G,
    connection: Connection,
    entries: usize,
    front: &F,
) -> Result<(), SearchFault>
    ensures { search_answered result ≡ unless (refused_by (search_asks T.rates (G.meaning area.now) (F.view front.now) connection entries)) (Ok tt) }
{
    check_start::<G, T, F>(area, connection.net, connection.start, entries, front)?;
    Ok(check_open(area, connection.goal, connection.net)?)
}

// Searches from the start until the goal is taken, and answers the goal's least cost. Asks whether there is a label a place
// (2), the front serves the tariff and the places (9), start and goal are open to the net (5), and there is a legal path (10).
pub fn search<G: Ground, T: Tariff, F: Front<T>>(
    area: &G,
    connection: Connection,
    labels: &mut [Option<T::Cost>],
    front: &mut F,
) -> Result<T::Cost, SearchFault>
    ensures answer { search_answered result ≡ search_answer T.rates (G.meaning area.now) (F.view front.old) connection (length labels.old) }
    ensures least { LabelsAreLeast T.rates }
    ensures wire { WireIsWire T.rates }
    ensures after { SearchLeaves T.rates (G.meaning area.now) connection (refused_by (search_asks T.rates (G.meaning area.now) (F.view front.old) connection (length labels.old))) labels.old labels.new front.old front.new result }
{
    check_search::<G, T, F>(area, connection, labels.len(), front)?;
    // Cut here, as in the wave.
    let places = area.shape().places() as usize;
    let board = &mut labels[..places];
    let _ = spread::<G, T, F>(
        area,
        connection.net,
        connection.start,
        Some(connection.goal),
        board,
        front,
    );
    label_at(board, connection.goal).ok_or(SearchFault::NoPath(connection.goal))
}

// The same offers through the heap and the ring, taken until nothing waits.
use front::Front;
use grid::Step;
use heap::{Heap, HeapRecord};
use octile::Octile;
use rectilinear::Rectilinear;
use ring::{Ring, RingRecord};
use std::fmt::Display;
use tariff::Tariff;
use via_first::ViaFirst;

// Places, and the steps by which they are offered.
const OFFERS: [(u32, Step); 6] = [
    (1, Step::Via),
    (2, Step::Diagonal),
    (1, Step::Straight),
    (3, Step::Straight),
    (3, Step::Via),
    (9, Step::Straight),
];

// Takes the places that wait, and prints them with their costs.
fn print_taken<T: Tariff, F: Front<T>>(rt: &HostRuntime, front: &mut F) -> anyhow::Result<()>
where
    T::Cost: Display,
    requires { F.Front.ordered front.old }
{
    while let Some(next) = front.take() {
        print!(rt; " {} at {}", next.place, next.cost)?;
    }
    println!(rt; "")?;
    Ok(())
}

// Starts a front at place 0, takes it, makes the offers, and prints the answers and what then waits.
fn print_front<T: Tariff, F: Front<T>>(
    rt: &HostRuntime,
    name: &str,
    front: &mut F,
) -> anyhow::Result<()>
where
    T::Cost: Display,
{
    if !front.start(0) {
        println!(rt; "  {name}: not served")?;
        return Ok(());
    }
    let _ = front.take();
    print!(rt; "  {name}:")?;
    for (place, step) in OFFERS {
        let answer = if front.put(place, step) { "yes" } else { "no" };
        print!(rt; " {answer}")?;
    }
    print!(rt; ";")?;
    print_taken::<T, F>(rt, front)
}

// What a heap makes of the offers.
fn print_heap<T: Tariff>(
    rt: &HostRuntime,
    name: &str,
    records: &mut [HeapRecord<T::Cost>],
) -> anyhow::Result<()>
where
    T::Cost: Display,
{
    let mut heap = Heap::new(records);
    print_front::<T, Heap<T::Cost>>(rt, name, &mut heap)
}

// What a ring makes of the offers. It stands apart: one function for both would need a trait for making a front.
fn print_ring<T: Tariff>(
    rt: &HostRuntime,
    name: &str,
    records: &mut [RingRecord<T::Cost>],
) -> anyhow::Result<()>
where
    T::Cost: Display,
{
    let mut ring = Ring::new(records);
    print_front::<T, Ring<T::Cost>>(rt, name, &mut ring)
}

// Records for a heap of five places. An array, so that the program asks for no memory here.
fn heap_records<C: Copy>(cost: C) -> [HeapRecord<C>; 6] {
    [HeapRecord {
        cost,
        slot: 0,
        at: 0,
    }; 6]
}

// Records for a ring of five places, an array too.
fn ring_records<C: Copy>() -> [RingRecord<C>; 6] {
    [RingRecord {
        cost: None,
        next: 0,
        back: 0,
        slot: 0,
        at: 0,
    }; 6]
}

// Prints what heap and ring make of the same offers.
pub fn print_fronts(rt: &HostRuntime) -> anyhow::Result<()> {
    println!(rt; "fronts")?;
    print_heap::<Octile>(rt, "heap, octile", &mut heap_records(Octile::nothing()))?;
    print_ring::<Octile>(rt, "ring, octile", &mut ring_records())?;
    print_heap::<Rectilinear>(
        rt,
        "heap, rectilinear",
        &mut heap_records(Rectilinear::nothing()),
    )?;
    print_ring::<Rectilinear>(rt, "ring, rectilinear", &mut ring_records())?;
    print_ring::<ViaFirst>(rt, "ring, via-first", &mut ring_records())
}

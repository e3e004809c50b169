// Prices a wire under each tariff, step by step, and lays it on a sheet.
// The arguments are the columns, rows and layers of a shape, and then the places of the wire.
#![tactic(auto)]

mod front_step;
mod sheet_step;

use anyhow::anyhow;
use front_step::print_fronts;
use grid::Shape;
use octile::Octile;
use pricing::{price, price_step};
use rectilinear::Rectilinear;
use sheet_step::print_sheet;
use std::env;
use std::fmt::Display;
use tariff::Tariff;
use via_first::ViaFirst;

// Prints the steps of a wire up to the first that is none.
fn print_steps<T: Tariff>(rt: &HostRuntime, shape: Shape, wire: &[u32]) -> anyhow::Result<()>
where
    T::Cost: Display,
{
    let mut cost = T::nothing();
    for [from, to] in wire.array_windows::<2>() {
        let Ok(leg) = price_step::<T>(shape, *from, *to, cost) else {
            return Ok(());
        };
        cost = leg.cost;
        println!(rt; "  {from} to {to}: {}, {cost}", leg.step)?;
    }
    Ok(())
}

// Prints the steps of a wire and what it costs, or why it is none.
fn print_price<T: Tariff>(
    rt: &HostRuntime,
    name: &str,
    shape: Shape,
    wire: &[u32],
) -> anyhow::Result<()>
where
    T::Cost: Display,
{
    println!(rt; "{name}")?;
    print_steps::<T>(rt, shape, wire)?;
    // Both arms print, so nothing is handed on.
    match price::<T>(shape, wire) {
        Ok(cost) => println!(rt; "  total {cost}")?,
        Err(fault) => println!(rt; "  {fault}")?,
    }
    Ok(())
}

// The numbers among the arguments.
fn numbers(rt: &HostRuntime) -> anyhow::Result<Vec<u32>> {
    env::args(rt)?
        .skip(1)
        .map(|word| -> anyhow::Result<u32> { Ok(word.parse::<u32>()?) })
        .try_collect(rt.alloc())
}

fn run(rt: &HostRuntime) -> anyhow::Result<()> {
    let list = numbers(rt)?;
    let [columns, rows, layers, wire @ ..] = list.as_slice() else {
        return Err(anyhow!("usage: price COLUMNS ROWS LAYERS PLACE .."));
    };
    // A refusal is printed here, and not handed on.
    match Shape::new(*columns, *rows, *layers) {
        Err(fault) => println!(rt; "no {}", fault.number())?,
        Ok(shape) => {
            print_price::<Octile>(rt, "octile", shape, wire)?;
            print_price::<Rectilinear>(rt, "rectilinear", shape, wire)?;
            print_price::<ViaFirst>(rt, "via-first", shape, wire)?;
            print_sheet(rt, shape, wire)?;
            print_fronts(rt)?;
        }
    }
    Ok(())
}

fn main(rt: HostRuntime) -> anyhow::Result<()> {
    run(&rt)
}

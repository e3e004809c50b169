// The wire on a sheet: it is laid with clearance and outside of a rectangle, and the board is printed.
use grid::{Shape, SheetFault};
use keep_out::Row;
use piles::{cover_apart_over_clear, cover_clear};
use sheet::{BARE, BARRED};
use wide::WideSheet;

// The place in the upper right corner of the first layer is kept out.
fn corner(shape: Shape) -> Row {
    Row {
        layer: 0,
        left: shape.columns - 1,
        top: 0,
        right: shape.columns - 1,
        bottom: 0,
    }
}

fn print_answer(
    rt: &HostRuntime,
    what: &str,
    answer: Result<(), SheetFault>,
) -> anyhow::Result<()> {
    // Both arms print, so nothing is handed on.
    match answer {
        Ok(()) => println!(rt; "  {what}: ok")?,
        Err(fault) => println!(rt; "  {what}: no {fault}")?,
    }
    Ok(())
}

// Prints the copper of a row of places.
fn print_row(rt: &HostRuntime, cells: &[u16]) -> anyhow::Result<()> {
    print!(rt; " ")?;
    for copper in cells {
        match *copper {
            BARE => print!(rt; " .")?,
            BARRED => print!(rt; " #")?,
            net => print!(rt; " {net}")?,
        }
    }
    println!(rt; "")?;
    Ok(())
}

// Lays the wire for net 1 on a bare sheet, and then the place beside its start for net 2. Prints the board, row by row, one
// layer after the other.
pub fn print_sheet(rt: &HostRuntime, shape: Shape, wire: &[u32]) -> anyhow::Result<()> {
    let mut cells = vec![in rt.alloc(); 0u16; shape.places() as usize]?;
    let mut sheet = WideSheet::new(shape, &mut cells);
    let first = cover_apart_over_clear(&mut sheet, corner(shape), wire, 1);
    let second = cover_clear(&mut sheet, &[1], 2);
    println!(rt; "sheet")?;
    print_answer(rt, "the wire for net 1", first)?;
    print_answer(rt, "place 1 for net 2", second)?;
    for row in cells.chunks(shape.columns as usize) {
        print_row(rt, row)?;
    }
    Ok(())
}

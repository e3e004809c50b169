// Shapes, places and steps at their limits.
#![tactic(auto)]

#[cfg(test)]
mod tests {
    use grid::{Coordinates, Shape, SheetFault, Step, directions};
    use std::process::Abort;
    use std::test::Fail;

    // A shape of these numbers is made.
    fn check_made(rt: &impl Abort, columns: u32, rows: u32, layers: u32) {
        let size = Shape::new(columns, rows, layers).map(|shape| [
            shape.columns,
            shape.rows,
            shape.layers,
        ]);
        assert_eq!(rt; size, Ok([columns, rows, layers]));
    }

    // None is made: refusal 1, which names 0.
    fn check_refused(rt: &impl Abort, columns: u32, rows: u32, layers: u32) {
        let fault = Shape::new(columns, rows, layers).err();
        assert_eq!(rt; fault.map(SheetFault::number), Some(1));
        assert_eq!(rt; fault.map(SheetFault::named), Some(0));
    }

    #[test]
    fn shapes(rt: HostRuntime) -> Result<(), Fail> {
        check_made(&rt, 512, 512, 8);
        check_made(&rt, 1, 1, 1);
        check_refused(&rt, 513, 512, 8);
        check_refused(&rt, 512, 513, 8);
        check_refused(&rt, 512, 512, 9);
        check_refused(&rt, 0, 1, 1);
        check_refused(&rt, 1, 0, 1);
        check_refused(&rt, 1, 1, 0);
        check_refused(&rt, u32::MAX, u32::MAX, u32::MAX);
        Ok(())
    }

    // The place at the coordinates has the number, and the number the coordinates.
    fn check_place(rt: &impl Abort, shape: Shape, at: Coordinates, place: u32) {
        assert_eq!(rt; shape.place(at), Some(place));
        assert_eq!(rt; shape.coordinates(place), Some(at));
    }

    fn coordinates(column: u32, row: u32, layer: u32) -> Coordinates {
        Coordinates { column, row, layer }
    }

    #[test]
    fn places(rt: HostRuntime) -> Result<(), Fail> {
        let shape = Shape::new(512, 512, 8)?;
        assert_eq!(rt; shape.places(), 2_097_152);
        check_place(&rt, shape, coordinates(0, 0, 0), 0);
        check_place(&rt, shape, coordinates(511, 511, 7), 2_097_151);
        check_place(&rt, shape, coordinates(1, 2, 3), (3 * 512 + 2) * 512 + 1);
        assert_eq!(rt; shape.coordinates(2_097_152), None);
        assert_eq!(rt; shape.coordinates(u32::MAX), None);
        assert_eq!(rt; shape.place(coordinates(512, 0, 0)), None);
        assert_eq!(rt; shape.place(coordinates(0, 512, 0)), None);
        assert_eq!(rt; shape.place(coordinates(0, 0, 8)), None);
        assert_eq!(rt;
            shape.place(coordinates(u32::MAX, u32::MAX, u32::MAX)),
            None
        );
        Ok(())
    }

    // The neighbours of a place in the ten directions are these, and the steps to them are those of the directions.
    fn check_neighbours(
        rt: &impl Abort,
        shape: Shape,
        place: u32,
        all: [Option<u32>; 10],
    ) -> Result<(), Fail> {
        let site = shape.site(place).ok_or("no site")?;
        for (direction, expected) in directions().iter().zip(all) {
            let to = site.neighbour(*direction);
            assert_eq!(rt; to, expected);
            if let Some(to) = to {
                assert_eq!(rt; shape.step(place, to), Some(direction.step()));
            }
        }
        Ok(())
    }

    #[test]
    fn neighbours(rt: HostRuntime) -> Result<(), Fail> {
        let shape = Shape::new(3, 3, 3)?;
        let inner = [12, 14, 10, 16, 9, 11, 15, 17, 4, 22];
        check_neighbours(&rt, shape, 13, inner.map(Some))?;
        check_neighbours(
            &rt,
            shape,
            0,
            [
                None,
                Some(1),
                None,
                Some(3),
                None,
                None,
                None,
                Some(4),
                None,
                Some(9),
            ],
        )?;
        check_neighbours(
            &rt,
            shape,
            26,
            [
                Some(25),
                None,
                Some(23),
                None,
                Some(22),
                None,
                None,
                None,
                Some(17),
                None,
            ],
        )?;
        assert!(rt; shape.site(27).is_none());
        Ok(())
    }

    #[test]
    fn lone_place(rt: HostRuntime) -> Result<(), Fail> {
        let shape = Shape::new(1, 1, 1)?;
        check_neighbours(&rt, shape, 0, [None; 10])
    }

    #[test]
    fn steps(rt: HostRuntime) -> Result<(), Fail> {
        let shape = Shape::new(5, 3, 2)?;
        assert_eq!(rt; shape.step(0, 1), Some(Step::Straight));
        assert_eq!(rt; shape.step(5, 0), Some(Step::Straight));
        assert_eq!(rt; shape.step(0, 6), Some(Step::Diagonal));
        assert_eq!(rt; shape.step(19, 4), Some(Step::Via));
        assert_eq!(rt; shape.step(0, 0), None);
        assert_eq!(rt; shape.step(4, 5), None);
        assert_eq!(rt; shape.step(0, 2), None);
        assert_eq!(rt; shape.step(0, 16), None);
        assert_eq!(rt; shape.step(29, 30), None);
        assert_eq!(rt; shape.step(u32::MAX, 0), None);
        Ok(())
    }
}

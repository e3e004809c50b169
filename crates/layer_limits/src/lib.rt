// Clearance and keep-out at their limits.
#![tactic(auto)]

#[cfg(test)]
mod tests {
    use clearance::Clearance;
    use grid::{Shape, SheetFault};
    use keep_out::{AddRectangle, KeepOut, Row};
    use sheet::{Ground, Sheet};
    use std::process::Abort;
    use std::test::Fail;
    use wide::WideSheet;

    fn row(layer: u32, left: u32, top: u32, right: u32, bottom: u32) -> Row {
        Row {
            layer,
            left,
            top,
            right,
            bottom,
        }
    }

    // How many of the first nine places are open to a net with clearance.
    fn open_clear<S: Sheet>(sheet: &mut S, net: u16) -> usize {
        let layer = Clearance::new(sheet);
        (0..9).filter(|place| layer.is_open(*place, net)).count()
    }

    // A barred corner closes itself and its three neighbours, a barred centre closes all nine places.
    #[test]
    fn clearance_at_edges(rt: HostRuntime) -> Result<(), Fail> {
        let shape = Shape::new(3, 3, 1)?;
        let mut cells = [7u16; 9];
        let mut sheet = WideSheet::new(shape, &mut cells);
        assert_eq!(rt; open_clear(&mut sheet, 1), 9);
        assert_eq!(rt; open_clear(&mut sheet, 0), 0);
        assert_eq!(rt; open_clear(&mut sheet, 65535), 0);
        assert_eq!(rt; sheet.bar(0), Ok(()));
        assert_eq!(rt; open_clear(&mut sheet, 1), 5);
        assert_eq!(rt; sheet.lay(8, 1), Ok(()));
        assert_eq!(rt; open_clear(&mut sheet, 1), 5);
        assert_eq!(rt; open_clear(&mut sheet, 2), 2);
        assert_eq!(rt; sheet.bar(4), Ok(()));
        assert_eq!(rt; open_clear(&mut sheet, 1), 0);
        Ok(())
    }

    fn lay_clear<S: Sheet>(sheet: &mut S, place: u32, net: u16) -> Result<(), SheetFault> {
        let mut layer = Clearance::new(sheet);
        layer.lay(place, net)
    }

    #[test]
    fn clearance_refuses(rt: HostRuntime) -> Result<(), Fail> {
        let shape = Shape::new(1, 1, 1)?;
        let mut cells = [0u16; 1];
        let mut sheet = WideSheet::new(shape, &mut cells);
        assert_eq!(rt;
            lay_clear(&mut sheet, 1, 1),
            Err(SheetFault::OutsideShape(1))
        );
        assert_eq!(rt; lay_clear(&mut sheet, 0, 0), Err(SheetFault::NoNet(0)));
        assert_eq!(rt;
            lay_clear(&mut sheet, 0, 65535),
            Err(SheetFault::NoNet(65535))
        );
        assert_eq!(rt; lay_clear(&mut sheet, 0, 65534), Ok(()));
        assert_eq!(rt; lay_clear(&mut sheet, 0, 1), Err(SheetFault::Closed(0)));
        Ok(())
    }

    // The answer to the last of so many rectangles that are added, and whether place 0 is open then: two answers of one try,
    // which the test takes apart at once. The same call is made so many times, with nothing to go over.
    fn add_all<S: Sheet>(sheet: &mut S, each: Row, count: u32) -> (Result<(), SheetFault>, bool) {
        let mut layer = KeepOut::new(sheet);
        let mut answer = Ok(());
        for _ in 0..count {
            answer = layer.add(each);
        }
        (answer, layer.is_open(0, 1))
    }

    fn check_added(
        rt: &impl Abort,
        each: Row,
        count: u32,
        answer: Result<(), SheetFault>,
        open: bool,
    ) -> Result<(), Fail> {
        let shape = Shape::new(2, 2, 1)?;
        let mut cells = [0u16; 4];
        let mut sheet = WideSheet::new(shape, &mut cells);
        let (added, opened) = add_all(&mut sheet, each, count);
        assert_eq!(rt; added, answer);
        assert_eq!(rt; opened, open);
        Ok(())
    }

    #[test]
    fn rectangles(rt: HostRuntime) -> Result<(), Fail> {
        let past = Err(SheetFault::PastLimits);
        check_added(&rt, row(0, 0, 0, 0, 0), 0, Ok(()), true)?;
        check_added(&rt, row(0, 0, 0, 0, 0), 1, Ok(()), false)?;
        check_added(&rt, row(0, 0, 0, 0, 0), 64, Ok(()), false)?;
        check_added(
            &rt,
            row(0, 0, 0, 0, 0),
            65,
            Err(SheetFault::ShortList(65)),
            false,
        )?;
        check_added(&rt, row(7, 511, 511, 511, 511), 1, Ok(()), true)?;
        check_added(&rt, row(0, 0, 0, 511, 511), 1, Ok(()), false)?;
        check_added(&rt, row(8, 0, 0, 0, 0), 1, past, true)?;
        check_added(&rt, row(0, 0, 0, 512, 0), 1, past, true)?;
        check_added(&rt, row(0, 0, 0, 0, 512), 1, past, true)?;
        check_added(&rt, row(0, 1, 0, 0, 0), 1, past, true)?;
        check_added(&rt, row(0, 0, 1, 0, 0), 1, past, true)?;
        check_added(&rt, row(8, 0, 0, 0, 0), 65, past, true)
    }
}

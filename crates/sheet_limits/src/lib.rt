// Grounds, sheets and paths at their limits.
#![tactic(auto)]

ghost use Rattle.sheet_limits.specs.Lists.{Wires};

#[cfg(test)]
mod tests {
    use cover::cover;
    use grid::{Shape, SheetFault};
    use sheet::{Ground, Sheet};
    use std::test::Fail;
    use wide::{Drawing, WideSheet, check_entries};

    // A caller knows its own list once the sheet on it is let go: here after a path was laid, or refused.
    fn wire_list(shape: Shape, cells: &mut [u16], path: &[u32], net: u16) -> Result<(), SheetFault>
        ensures { Wires shape cells.old cells.new path.now net result }
    {
        let mut sheet = WideSheet::new(shape, cells);
        cover(&mut sheet, path, net)
    }

    // Calls as values, so that all cases stand in one table.
    #[derive(Clone, Copy)]
    enum Call {
        Lay(u32, u16),
        Lift(u32),
        Bar(u32),
        Wipe,
        Cover([u32; 3], u16),
    }

    fn make(sheet: &mut WideSheet, call: Call) -> Result<(), SheetFault> {
        match call {
            Call::Lay(place, net) => sheet.lay(place, net),
            Call::Lift(place) => sheet.lift(place),
            Call::Bar(place) => sheet.bar(place),
            Call::Wipe => {
                sheet.wipe();
                Ok(())
            }
            Call::Cover(path, net) => cover(sheet, &path, net),
        }
    }

    // The answer of the last of the calls, made one after another on a new sheet.
    fn make_all(shape: Shape, cells: &mut [u16], calls: &[Call]) -> Result<(), SheetFault> {
        let mut sheet = WideSheet::new(shape, cells);
        let mut answer = Ok(());
        for next in calls {
            answer = make(&mut sheet, *next);
        }
        answer
    }

    // On a board of 2 columns, 2 rows and 1 layer: how many of five entries of 9 are lent, the calls, the last answer, and
    // what the list holds then.
    #[derive(Clone, Copy)]
    struct Case {
        entries: usize,
        calls: &'static [Call],
        answer: Result<(), SheetFault>,
        left: [u16; 5],
    }

    const CASES: [Case; 36] = [
        // made on a list one short, exact and one long
        Case {
            entries: 3,
            calls: &[],
            answer: Ok(()),
            left: [0, 0, 0, 9, 9],
        },
        Case {
            entries: 4,
            calls: &[],
            answer: Ok(()),
            left: [0, 0, 0, 0, 9],
        },
        Case {
            entries: 5,
            calls: &[],
            answer: Ok(()),
            left: [0, 0, 0, 0, 9],
        },
        // each call on a list one short
        Case {
            entries: 3,
            calls: &[Call::Lay(0, 1)],
            answer: Err(SheetFault::Closed(0)),
            left: [0, 0, 0, 9, 9],
        },
        Case {
            entries: 3,
            calls: &[Call::Lift(0)],
            answer: Err(SheetFault::CarriesNone(0)),
            left: [0, 0, 0, 9, 9],
        },
        Case {
            entries: 3,
            calls: &[Call::Bar(0)],
            answer: Err(SheetFault::NoSpare(1)),
            left: [0, 0, 0, 9, 9],
        },
        Case {
            entries: 3,
            calls: &[Call::Wipe],
            answer: Ok(()),
            left: [0, 0, 0, 9, 9],
        },
        Case {
            entries: 3,
            calls: &[Call::Cover([2, 1, 0], 1)],
            answer: Err(SheetFault::Closed(2)),
            left: [0, 0, 0, 9, 9],
        },
        // the first and the last place, and the one past it
        Case {
            entries: 4,
            calls: &[Call::Lay(0, 1)],
            answer: Ok(()),
            left: [1, 0, 0, 0, 9],
        },
        Case {
            entries: 5,
            calls: &[Call::Lay(3, 1)],
            answer: Ok(()),
            left: [0, 0, 0, 1, 9],
        },
        Case {
            entries: 5,
            calls: &[Call::Lay(4, 0)],
            answer: Err(SheetFault::OutsideShape(4)),
            left: [0, 0, 0, 0, 9],
        },
        Case {
            entries: 5,
            calls: &[Call::Lift(4)],
            answer: Err(SheetFault::OutsideShape(4)),
            left: [0, 0, 0, 0, 9],
        },
        Case {
            entries: 5,
            calls: &[Call::Bar(4)],
            answer: Err(SheetFault::OutsideShape(4)),
            left: [0, 0, 0, 0, 9],
        },
        // the least and the largest net, and the numbers beside them
        Case {
            entries: 5,
            calls: &[Call::Lay(1, 0)],
            answer: Err(SheetFault::NoNet(0)),
            left: [0, 0, 0, 0, 9],
        },
        Case {
            entries: 5,
            calls: &[Call::Lay(1, 65534)],
            answer: Ok(()),
            left: [0, 65534, 0, 0, 9],
        },
        Case {
            entries: 5,
            calls: &[Call::Lay(1, 65535)],
            answer: Err(SheetFault::NoNet(65535)),
            left: [0, 0, 0, 0, 9],
        },
        // laid twice, for the same net and for another, and on a barred place
        Case {
            entries: 5,
            calls: &[Call::Lay(1, 7), Call::Lay(1, 7)],
            answer: Ok(()),
            left: [0, 7, 0, 0, 9],
        },
        Case {
            entries: 5,
            calls: &[Call::Lay(1, 7), Call::Lay(1, 8)],
            answer: Err(SheetFault::Closed(1)),
            left: [0, 7, 0, 0, 9],
        },
        Case {
            entries: 5,
            calls: &[Call::Bar(1), Call::Lay(1, 7)],
            answer: Err(SheetFault::Closed(1)),
            left: [0, 65535, 0, 0, 9],
        },
        // lifted where bare, barred and of a net
        Case {
            entries: 5,
            calls: &[Call::Lift(1)],
            answer: Err(SheetFault::CarriesNone(1)),
            left: [0, 0, 0, 0, 9],
        },
        Case {
            entries: 5,
            calls: &[Call::Bar(1), Call::Lift(1)],
            answer: Err(SheetFault::CarriesNone(1)),
            left: [0, 65535, 0, 0, 9],
        },
        Case {
            entries: 5,
            calls: &[Call::Lay(1, 65534), Call::Lift(1)],
            answer: Ok(()),
            left: [0, 0, 0, 0, 9],
        },
        // barred where bare, of a net and barred
        Case {
            entries: 5,
            calls: &[Call::Bar(3)],
            answer: Ok(()),
            left: [0, 0, 0, 65535, 9],
        },
        Case {
            entries: 5,
            calls: &[Call::Lay(3, 7), Call::Bar(3)],
            answer: Err(SheetFault::NotBare(3)),
            left: [0, 0, 0, 7, 9],
        },
        Case {
            entries: 5,
            calls: &[Call::Bar(3), Call::Bar(3)],
            answer: Err(SheetFault::NotBare(3)),
            left: [0, 0, 0, 65535, 9],
        },
        // wiped
        Case {
            entries: 5,
            calls: &[Call::Lay(0, 7), Call::Bar(3), Call::Wipe],
            answer: Ok(()),
            left: [0, 0, 0, 0, 9],
        },
        // a path, also over places of its own net
        Case {
            entries: 5,
            calls: &[Call::Cover([0, 1, 3], 7)],
            answer: Ok(()),
            left: [7, 7, 0, 7, 9],
        },
        Case {
            entries: 5,
            calls: &[Call::Lay(1, 7), Call::Cover([0, 1, 3], 7)],
            answer: Ok(()),
            left: [7, 7, 0, 7, 9],
        },
        // with a place in its middle that is barred, of another net, or outside
        Case {
            entries: 5,
            calls: &[Call::Bar(1), Call::Cover([0, 1, 3], 7)],
            answer: Err(SheetFault::Closed(1)),
            left: [0, 65535, 0, 0, 9],
        },
        Case {
            entries: 5,
            calls: &[Call::Lay(1, 8), Call::Cover([0, 1, 3], 7)],
            answer: Err(SheetFault::Closed(1)),
            left: [0, 8, 0, 0, 9],
        },
        Case {
            entries: 5,
            calls: &[Call::Cover([0, 4, 3], 7)],
            answer: Err(SheetFault::OutsideShape(4)),
            left: [0, 0, 0, 0, 9],
        },
        // for numbers that are no net's, which are asked first
        Case {
            entries: 5,
            calls: &[Call::Cover([4, 4, 4], 0)],
            answer: Err(SheetFault::NoNet(0)),
            left: [0, 0, 0, 0, 9],
        },
        Case {
            entries: 5,
            calls: &[Call::Cover([4, 4, 4], 65535)],
            answer: Err(SheetFault::NoNet(65535)),
            left: [0, 0, 0, 0, 9],
        },
        // with a place that stands in it three times
        Case {
            entries: 5,
            calls: &[Call::Bar(1), Call::Cover([0, 0, 0], 7)],
            answer: Ok(()),
            left: [7, 65535, 0, 0, 9],
        },
        Case {
            entries: 5,
            calls: &[Call::Bar(1), Call::Bar(2), Call::Cover([0, 0, 0], 7)],
            answer: Err(SheetFault::NoSpare(3)),
            left: [0, 65535, 65535, 0, 9],
        },
        Case {
            entries: 5,
            calls: &[
                Call::Bar(1),
                Call::Bar(2),
                Call::Lay(0, 7),
                Call::Cover([0, 0, 0], 7),
            ],
            answer: Ok(()),
            left: [7, 65535, 65535, 0, 9],
        },
    ];

    #[test]
    fn calls(rt: HostRuntime) -> Result<(), Fail> {
        let shape = Shape::new(2, 2, 1)?;
        for case in CASES {
            let mut cells = [9u16; 5];
            assert!(rt; case.entries <= 5);
            let answer = make_all(shape, &mut cells[0..case.entries], case.calls);
            assert_eq!(rt; answer, case.answer);
            assert_eq!(rt; cells, case.left);
        }
        Ok(())
    }

    // Where place 1 carries net 1 and place 2 is barred, on a list of so many entries: a place, a net, whether the place is
    // open to the net, the copper of the place, a number, and whether the spare covers so many. The columns have no names, so
    // that a row stands in one line.
    #[derive(Clone, Copy)]
    struct Question(usize, u32, u16, bool, Option<u16>, u32, bool);

    const QUESTIONS: [Question; 13] = [
        // on a list one short all is bare, nothing is open, and there is no spare
        Question(3, 0, 1, false, Some(0), 0, true),
        Question(3, 3, 1, false, Some(0), 1, false),
        Question(3, 4, 1, false, None, 4, false),
        Question(4, 0, 0, false, Some(0), 0, true),
        Question(4, 0, 1, true, Some(0), 1, true),
        Question(4, 0, 65534, true, Some(0), 2, true),
        Question(4, 0, 65535, false, Some(0), 3, false),
        Question(5, 1, 1, true, Some(1), 4, false),
        Question(5, 1, 2, false, Some(1), u32::MAX, false),
        Question(5, 2, 1, false, Some(65535), 2, true),
        Question(5, 2, 65535, false, Some(65535), 3, false),
        Question(5, 3, 1, true, Some(0), 2, true),
        Question(5, 4, 1, false, None, 3, false),
    ];

    #[test]
    fn questions(rt: HostRuntime) -> Result<(), Fail> {
        let shape = Shape::new(2, 2, 1)?;
        for Question(entries, place, net, open, copper, needed, spares) in QUESTIONS {
            assert!(rt; entries <= 5);
            let mut cells = [9u16; 5];
            let mut sheet = WideSheet::new(shape, &mut cells[0..entries]);
            let _ = sheet.lay(1, 1);
            let _ = sheet.bar(2);
            assert_eq!(rt; sheet.is_open(place, net), open);
            assert_eq!(rt; sheet.copper(place), copper);
            assert_eq!(rt; sheet.spares(needed), spares);
        }
        Ok(())
    }

    // The corner places of a board of 3 columns, 2 rows and 2 layers.
    #[test]
    fn corners(rt: HostRuntime) -> Result<(), Fail> {
        let shape = Shape::new(3, 2, 2)?;
        let mut cells = [9u16; 13];
        assert_eq!(rt;
            wire_list(shape, &mut cells, &[0, 2, 3, 5, 6, 8, 9, 11], 7),
            Ok(())
        );
        assert_eq!(rt; cells, [7, 0, 7, 7, 0, 7, 7, 0, 7, 7, 0, 7, 9]);
        Ok(())
    }

    // A board of one place.
    #[test]
    fn lone_place(rt: HostRuntime) -> Result<(), Fail> {
        let shape = Shape::new(1, 1, 1)?;
        let mut cells = [9u16; 2];
        assert_eq!(rt; wire_list(shape, &mut cells, &[0], 65534), Ok(()));
        assert_eq!(rt; cells, [65534, 9]);
        Ok(())
    }

    // A drawing on a list one short, exact and one long: how many entries are lent, a place, a net, and whether it is open. The
    // columns have no names, so that a row stands in one line.
    const DRAWN: [(usize, u32, u16, bool); 10] = [
        (3, 0, 1, false),
        (4, 0, 1, true),
        (5, 0, 65534, true),
        (5, 0, 0, false),
        (5, 0, 65535, false),
        (5, 1, 1, false),
        (5, 2, 1, false),
        (4, 3, 1, true),
        (5, 3, 1, true),
        (5, 4, 1, false),
    ];

    #[test]
    fn drawings(rt: HostRuntime) -> Result<(), Fail> {
        let shape = Shape::new(2, 2, 1)?;
        let cells = [0u8, 1, 255, 0, 0];
        for (entries, place, net, open) in DRAWN {
            assert!(rt; entries <= 5);
            let drawing = Drawing::new(shape, &cells[0..entries]);
            assert_eq!(rt; drawing.is_open(place, net), open);
        }
        assert_eq!(rt;
            check_entries(shape, &cells[0..3]),
            Err(SheetFault::ShortList(4))
        );
        assert_eq!(rt; check_entries(shape, &cells[0..4]), Ok(()));
        assert_eq!(rt; check_entries(shape, &[9u16; 5]), Ok(()));
        Ok(())
    }
}

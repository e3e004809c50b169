// The three tariffs at the limits of their costs and past them.
#![tactic(auto)]

#[cfg(test)]
mod tests {
    use grid::Step;
    use grid::Step::{Diagonal, Straight, Via};
    use octile::Octile;
    use rectilinear::Rectilinear;
    use std::fmt::Debug;
    use std::process::Abort;
    use std::test::Fail;
    use surd::Surd;
    use tariff::Tariff;
    use via_first::{ViaFirst, ViaFirstCost};

    // The largest a of a rectilinear or an octile cost that a step may come to.
    const FAR: u32 = 16_777_216;

    // The largest b of such an octile cost, and the largest count of such a via-first cost.
    const MOST: u32 = 2_097_152;

    // The largest number that a cost can hold.
    const MAX: u32 = u32::MAX;

    // The number a + b√2, short for the many rows.
    fn number(a: u32, b: u32) -> Surd {
        Surd { a, b }
    }

    // A cost of three counts, short for the many rows.
    fn counts(vias: u32, a: u32, b: u32) -> ViaFirstCost {
        ViaFirstCost {
            vias,
            rest: Surd { a, b },
        }
    }

    // What a step makes of each cost.
    fn check_steps<T: Tariff>(rt: &impl Abort, rows: &[(T::Cost, Step, Option<T::Cost>)])
    where
        T::Cost: PartialEq + Debug + Drop,
    {
        for (cost, step, next) in rows {
            assert_eq!(rt; T::after(*cost, *step), *next);
        }
    }

    // No step is to be had from such costs.
    fn check_refused<T: Tariff>(rt: &impl Abort, costs: &[T::Cost]) {
        for cost in costs {
            for step in [Straight, Diagonal, Via] {
                assert!(rt; T::after(*cost, step).is_none());
            }
        }
    }

    // Each cost is below all that follow, and below no other.
    fn check_rising<T: Tariff>(rt: &impl Abort, costs: &[T::Cost]) {
        for (i, x) in costs.iter().enumerate() {
            for (j, y) in costs.iter().enumerate() {
                assert_eq!(rt; T::less(*x, *y), i < j);
            }
        }
    }

    // The level of each cost.
    fn check_levels<T: Tariff>(rt: &impl Abort, rows: &[(T::Cost, u64)]) {
        for (cost, level) in rows {
            assert_eq!(rt; T::level(*cost), *level);
        }
    }

    #[test]
    fn rectilinear_limits(rt: HostRuntime) {
        check_steps::<Rectilinear>(
            &rt,
            &[
                (FAR - 1, Straight, Some(FAR)),
                (FAR, Straight, None),
                (FAR - 8, Via, Some(FAR)),
                (FAR - 7, Via, None),
                (0, Diagonal, None),
            ],
        );
        check_refused::<Rectilinear>(&rt, &[FAR, FAR + 1, MAX - 8, MAX - 7, MAX - 1, MAX]);
        check_rising::<Rectilinear>(&rt, &[0, FAR, FAR + 1, MAX - 1, MAX]);
        check_levels::<Rectilinear>(&rt, &[(0, 0), (FAR, 16_777_216), (MAX, 4_294_967_295)]);
        assert!(rt;
            Rectilinear::has(Straight) && !Rectilinear::has(Diagonal) && Rectilinear::has(Via)
        );
    }

    #[test]
    fn octile_limits(rt: HostRuntime) {
        check_steps::<Octile>(
            &rt,
            &[
                (number(FAR - 1, 0), Straight, Some(number(FAR, 0))),
                (number(FAR, 0), Straight, None),
                (number(FAR - 8, 0), Via, Some(number(FAR, 0))),
                (number(FAR - 7, 0), Via, None),
                (number(0, MOST - 1), Diagonal, Some(number(0, MOST))),
                (number(0, MOST), Diagonal, None),
                (number(FAR, MOST - 1), Diagonal, Some(number(FAR, MOST))),
                (number(FAR - 8, MOST), Via, Some(number(FAR, MOST))),
            ],
        );
        check_refused::<Octile>(
            &rt,
            &[
                number(FAR, MOST),
                number(FAR + 1, 0),
                number(0, MOST + 1),
                number(MAX - 7, 0),
                number(MAX, 0),
                number(0, MAX),
                number(MAX, MAX),
            ],
        );
        check_rising::<Octile>(
            &rt,
            &[
                number(0, 0),
                number(0, MOST),
                number(0, MOST + 1),
                number(FAR, 0),
                number(FAR + 1, 0),
                number(FAR, MOST),
                number(FAR + 1, MOST),
                number(FAR, MOST + 1),
                number(0, 543_339_720),
                number(768_398_401, 0),
                number(1_855_077_841, 0),
                number(0, 1_311_738_121),
                number(MAX, 0),
                number(0, MAX),
                number(MAX, MAX - 1),
                number(MAX - 1, MAX),
                number(MAX, MAX),
            ],
        );
        check_levels::<Octile>(
            &rt,
            &[
                (number(0, 0), 0),
                (number(0, 1_023), 1_446),
                (number(0, 1_024), 1_448),
                (number(0, MOST), 2_965_820),
                (number(FAR, MOST), 19_743_036),
                (number(MAX, 0), 4_294_967_295),
                (number(0, MAX), 6_074_000_998),
                (number(MAX, MAX), 10_368_968_293),
            ],
        );
        assert!(rt; Octile::has(Straight) && Octile::has(Diagonal) && Octile::has(Via));
    }

    #[test]
    fn via_first_limits(rt: HostRuntime) {
        check_steps::<ViaFirst>(
            &rt,
            &[
                (counts(0, MOST - 1, 0), Straight, Some(counts(0, MOST, 0))),
                (counts(0, MOST, 0), Straight, None),
                (counts(0, 0, MOST - 1), Diagonal, Some(counts(0, 0, MOST))),
                (counts(0, 0, MOST), Diagonal, None),
                (counts(MOST - 1, 0, 0), Via, Some(counts(MOST, 0, 0))),
                (counts(MOST, 0, 0), Via, None),
                (
                    counts(MOST, MOST - 1, MOST),
                    Straight,
                    Some(counts(MOST, MOST, MOST)),
                ),
                (
                    counts(MOST, MOST, MOST - 1),
                    Diagonal,
                    Some(counts(MOST, MOST, MOST)),
                ),
                (
                    counts(MOST - 1, MOST, MOST),
                    Via,
                    Some(counts(MOST, MOST, MOST)),
                ),
            ],
        );
        check_refused::<ViaFirst>(
            &rt,
            &[
                counts(MOST, MOST, MOST),
                counts(MOST + 1, 0, 0),
                counts(0, MOST + 1, 0),
                counts(0, 0, MOST + 1),
                counts(MAX, 0, 0),
                counts(0, MAX, 0),
                counts(0, 0, MAX),
                counts(MAX, MAX, MAX),
            ],
        );
        check_rising::<ViaFirst>(
            &rt,
            &[
                counts(0, 0, 0),
                counts(0, 768_398_400, 0),
                counts(0, 0, 543_339_720),
                counts(0, 768_398_401, 0),
                counts(0, MAX, MAX),
                counts(1, 0, 0),
                counts(MOST, MOST, MOST),
                counts(MOST + 1, 0, 0),
                counts(MAX - 1, MAX, MAX),
                counts(MAX, 0, 0),
                counts(MAX, MAX, 0),
                counts(MAX, 0, MAX),
                counts(MAX, MAX, MAX),
            ],
        );
        check_levels::<ViaFirst>(&rt, &[(counts(0, 0, 0), 0), (counts(MAX, MAX, MAX), 0)]);
        assert!(rt; ViaFirst::has(Straight) && ViaFirst::has(Diagonal) && ViaFirst::has(Via));
    }

    #[test]
    fn spans(rt: HostRuntime) {
        assert_eq!(rt; Rectilinear::max_rise(), 8);
        assert_eq!(rt; Octile::max_rise(), 8);
        assert_eq!(rt; ViaFirst::max_rise(), 0);
    }

    #[test]
    fn via_first_text(rt: HostRuntime) -> Result<(), Fail> {
        let heap = rt.alloc();
        let short = counts(0, 2, 2);
        assert_eq!(rt; format!(in heap; "{short}")?.as_str(), "0 vias (2, 2)");
        let long = counts(MAX, MOST + 1, MAX);
        assert_eq!(rt;
            format!(in heap; "{long}")?.as_str(),
            "4294967295 vias (2097153, 4294967295)"
        );
        Ok(())
    }
}

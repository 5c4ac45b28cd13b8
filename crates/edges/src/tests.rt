use ladder::ladder::Ladder;
use ladder::step::{Price, Step};
use money::division::div_round;
use money::divisor::Divisor;
use std::test::Fail;
use tariff::reading::Reading;
use tariff::refusal::Refusal;
use tariff::schedule::Schedule;

// What the rows start from. As in `drill`; one for both would have to be public in `tariff`, where no schedule is the default.
pub(crate) const EMPTY: Reading = Reading {
    schedule: Schedule::Grs,
    rooms: 0,
    kwh: 0,
    off_peak_kwh: 0,
    kw: 0,
    kva: 0,
    off_peak_kva: 0,
    contracted_load: 0,
};

const TIME_OF_USE: Reading = Reading {
    schedule: Schedule::TouP,
    kwh: 1_000,
    off_peak_kwh: 2_000,
    kva: 100,
    off_peak_kva: 200,
    contracted_load: 1_000,
    ..EMPTY
};

// A reading, its customer, energy, demand, excess and lift lines and its base in cents, and its bill's kWh.
struct Example {
    reading: Reading,
    lines: [i64; 5],
    base: i64,
    kwh: u32,
}

const EXAMPLES: &[Example] = &[
    Example {
        reading: Reading { kwh: 425, ..EMPTY },
        lines: [4_00, 21_01, 0, 0, 0],
        base: 25_01,
        kwh: 425,
    },
    Example {
        reading: Reading { kwh: 426, ..EMPTY },
        lines: [4_00, 21_07, 0, 0, 0],
        base: 25_07,
        kwh: 426,
    },
    Example {
        reading: Reading {
            schedule: Schedule::Rfr,
            rooms: 2,
            kwh: 800,
            ..EMPTY
        },
        lines: [40_00, 0, 0, 0, 0],
        base: 40_00,
        kwh: 800,
    },
    Example {
        reading: Reading {
            schedule: Schedule::Rfr,
            rooms: 2,
            kwh: 801,
            ..EMPTY
        },
        lines: [40_00, 6, 0, 0, 0],
        base: 40_06,
        kwh: 801,
    },
    Example {
        reading: Reading {
            schedule: Schedule::Gsp,
            kwh: 30_001,
            kw: 100,
            kva: 120,
            contracted_load: 100,
            ..EMPTY
        },
        lines: [200_00, 1_408_24, 972_00, 200_00, 0],
        base: 2_780_24,
        kwh: 30_001,
    },
    Example {
        reading: TIME_OF_USE,
        lines: [200_00, 95_37, 1_030_00, 0, 70_00],
        base: 1_395_37,
        kwh: 3_000,
    },
];

#[test]
fn examples_come_to_their_lines(rt: HostRuntime) -> Result<(), Fail> {
    for example in EXAMPLES {
        let Ok(rated) = example.reading.rate() else {
            return Err(Fail::new("a reading of the table is refused"));
        };
        let lines = [
            rated.lines.customer.0,
            rated.lines.energy.0,
            rated.lines.demand.0,
            rated.lines.excess.0,
            rated.lines.lift.0,
        ];
        assert_eq!(rt; lines, example.lines);
        assert_eq!(rt; rated.bill.base.0, example.base);
        assert_eq!(rt; rated.bill.kwh, example.kwh);
    }
    Ok(())
}

#[test]
fn time_of_use_wants_a_load(rt: HostRuntime) -> Result<(), Fail> {
    let reading = Reading {
        contracted_load: 999,
        ..TIME_OF_USE
    };
    match reading.rate() {
        Ok(_) => Err(Fail::new("a load of 999 kVA is rated")),
        Err(fault) => {
            assert_eq!(rt;
                Refusal::from(fault),
                Refusal {
                    number: 5,
                    layer: 2,
                    field: 10,
                }
            );
            Ok(())
        },
    }
}

// A number, a divisor, and the rounded quotient.
const QUOTIENTS: &[(i64, u64, i64)] = &[
    (5, 2, 3),
    (-5, 2, -3),
    (4_999, 10_000, 0),
    (5_000, 10_000, 1),
    (-5_000, 10_000, -1),
    (-4_999, 10_000, 0),
    (i64::MIN, 1, i64::MIN),
    (8_400_000_000_000_000_001, 2, 4_200_000_000_000_000_001),
    (-8_400_000_000_000_000_001, 2, -4_200_000_000_000_000_001),
];

#[test]
fn halves_go_away_from_zero(rt: HostRuntime) -> Result<(), Fail> {
    for (n, d, quotient) in QUOTIENTS {
        let Some(by) = Divisor::new(*d) else {
            return Err(Fail::new("a divisor of the table is refused"));
        };
        assert_eq!(rt; div_round(*n, by), *quotient);
    }
    assert!(rt; Divisor::new(0).is_none());
    assert!(rt; Divisor::new(1 << 63).is_none());
    Ok(())
}

#[test]
fn ladders_keep_their_rules(rt: HostRuntime) -> Result<(), Fail> {
    assert!(rt; Price::new(1_000_000).is_none());
    assert!(rt; Price::new(999_999).is_some());
    let one = Price { value: 1 };
    let two = Price { value: 2 };
    let dear = Price { value: 999_999 };
    let a = Step {
        bound: 10,
        price: one,
    };
    let b = Step {
        bound: 10,
        price: two,
    };
    let c = Step {
        bound: 30,
        price: two,
    };
    assert!(rt; Ladder::new(&[c, a], dear).is_none());
    assert!(rt; Ladder::new(&[a, c, b], dear).is_none());
    assert!(rt; Ladder::new(&[a, a, a, a], dear).is_none());
    let Some(ladder) = Ladder::new(&[a, b, c], dear) else {
        return Err(Fail::new("a ladder is refused"));
    };
    assert_eq!(rt; ladder.charge(0).0, 0);
    assert_eq!(rt; ladder.charge(10).0, 10);
    assert_eq!(rt; ladder.charge(30).0, 50);
    assert_eq!(rt; ladder.charge(31).0, 1_000_049);
    assert!(rt; ladder.block(4, 31).is_none());
    Ok(())
}

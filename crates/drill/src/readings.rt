// The readings: one of each schedule, the edges where a price, a floor or a verdict changes, and one for each refusal.
use tariff::reading::Reading;
use tariff::schedule::Schedule;

// A reading, and what it is there to show.
#[derive(Clone, Copy)]
pub(crate) struct Noted {
    pub(crate) note: &'static str,
    pub(crate) reading: Reading,
}

// What the rows start from. As in the tests; one for both would have to be public in `tariff`, where no schedule is the default.
const EMPTY: Reading = Reading {
    schedule: Schedule::Grs,
    rooms: 0,
    kwh: 0,
    off_peak_kwh: 0,
    kw: 0,
    kva: 0,
    off_peak_kva: 0,
    contracted_load: 0,
};

pub(crate) const READINGS: &[Noted] = &[
    Noted {
        note: "no kWh: the customer charge is the floor",
        reading: Reading {
            schedule: Schedule::Grs,
            ..EMPTY
        },
    },
    Noted {
        note: "the last kWh at the first price",
        reading: Reading {
            schedule: Schedule::Grs,
            kwh: 425,
            ..EMPTY
        },
    },
    Noted {
        note: "one kWh at the further price",
        reading: Reading {
            schedule: Schedule::Grs,
            kwh: 426,
            ..EMPTY
        },
    },
    Noted {
        note: "lifeline service, both prices",
        reading: Reading {
            schedule: Schedule::Lrs,
            kwh: 500,
            ..EMPTY
        },
    },
    Noted {
        note: "public housing, both prices",
        reading: Reading {
            schedule: Schedule::Rh3,
            kwh: 500,
            ..EMPTY
        },
    },
    Noted {
        note: "one room, one kWh beyond those covered",
        reading: Reading {
            schedule: Schedule::Rfr,
            rooms: 1,
            kwh: 601,
            ..EMPTY
        },
    },
    Noted {
        note: "two rooms, all kWh covered",
        reading: Reading {
            schedule: Schedule::Rfr,
            rooms: 2,
            kwh: 800,
            ..EMPTY
        },
    },
    Noted {
        note: "two rooms, one kWh beyond",
        reading: Reading {
            schedule: Schedule::Rfr,
            rooms: 2,
            kwh: 801,
            ..EMPTY
        },
    },
    Noted {
        note: "three rooms, one kWh beyond",
        reading: Reading {
            schedule: Schedule::Rfr,
            rooms: 3,
            kwh: 801,
            ..EMPTY
        },
    },
    Noted {
        note: "four rooms, one kWh beyond",
        reading: Reading {
            schedule: Schedule::Rfr,
            rooms: 4,
            kwh: 1_001,
            ..EMPTY
        },
    },
    Noted {
        note: "five rooms, one kWh beyond",
        reading: Reading {
            schedule: Schedule::Rfr,
            rooms: 5,
            kwh: 1_001,
            ..EMPTY
        },
    },
    Noted {
        note: "one price, half a cent rounded up",
        reading: Reading {
            schedule: Schedule::Gss,
            kwh: 500,
            ..EMPTY
        },
    },
    Noted {
        note: "demand above the contracted load is charged besides",
        reading: Reading {
            schedule: Schedule::Gsp,
            kwh: 30_001,
            kw: 100,
            kva: 120,
            contracted_load: 100,
            ..EMPTY
        },
    },
    Noted {
        note: "a small plant is lifted to the floor",
        reading: Reading {
            schedule: Schedule::Gsp,
            kwh: 1_000,
            kw: 10,
            kva: 10,
            contracted_load: 10,
            ..EMPTY
        },
    },
    Noted {
        note: "0 kW: every kWh at the further price",
        reading: Reading {
            schedule: Schedule::Gsp,
            kwh: 1_000,
            kva: 60,
            contracted_load: 60,
            ..EMPTY
        },
    },
    Noted {
        note: "the greatest base of all",
        reading: Reading {
            schedule: Schedule::Gsp,
            kwh: 9_999_999,
            kw: 99_999,
            kva: 99_999,
            ..EMPTY
        },
    },
    Noted {
        note: "transmission voltage, both prices",
        reading: Reading {
            schedule: Schedule::Gst,
            kwh: 100_000,
            kw: 250,
            kva: 300,
            contracted_load: 300,
            ..EMPTY
        },
    },
    Noted {
        note: "nothing drawn: all of the floor but the customer charge is lifted",
        reading: Reading {
            schedule: Schedule::Gst,
            ..EMPTY
        },
    },
    Noted {
        note: "demand above the contracted load, transmission voltage",
        reading: Reading {
            schedule: Schedule::Gst,
            kva: 110,
            contracted_load: 100,
            ..EMPTY
        },
    },
    Noted {
        note: "energy is left out of the floor",
        reading: Reading {
            schedule: Schedule::TouP,
            kwh: 1_000,
            off_peak_kwh: 2_000,
            kva: 100,
            off_peak_kva: 200,
            contracted_load: 1_000,
            ..EMPTY
        },
    },
    Noted {
        note: "the smaller floor",
        reading: Reading {
            schedule: Schedule::TouP,
            contracted_load: 2_999,
            ..EMPTY
        },
    },
    Noted {
        note: "the larger floor",
        reading: Reading {
            schedule: Schedule::TouP,
            contracted_load: 3_000,
            ..EMPTY
        },
    },
    Noted {
        note: "both periods are summed before the cent is rounded",
        reading: Reading {
            schedule: Schedule::TouT,
            kwh: 1,
            off_peak_kwh: 1,
            kva: 1,
            off_peak_kva: 1,
            contracted_load: 1_000,
            ..EMPTY
        },
    },
    Noted {
        note: "the larger floor, transmission voltage",
        reading: Reading {
            schedule: Schedule::TouT,
            contracted_load: 3_000,
            ..EMPTY
        },
    },
    Noted {
        note: "agricultural service, one price",
        reading: Reading {
            schedule: Schedule::Gas,
            kwh: 1_000,
            ..EMPTY
        },
    },
    Noted {
        note: "the last kWh at the first price",
        reading: Reading {
            schedule: Schedule::Lp13,
            kwh: 50_000,
            kw: 500,
            ..EMPTY
        },
    },
    Noted {
        note: "one kWh at the further price",
        reading: Reading {
            schedule: Schedule::Lp13,
            kwh: 50_001,
            kw: 500,
            ..EMPTY
        },
    },
    Noted {
        note: "nothing drawn: the whole floor is lifted",
        reading: Reading {
            schedule: Schedule::Lp13,
            ..EMPTY
        },
    },
    Noted {
        note: "the fixed rate has at least one room",
        reading: Reading {
            schedule: Schedule::Rfr,
            kwh: 1,
            ..EMPTY
        },
    },
    Noted {
        note: "the fixed rate has at most five rooms",
        reading: Reading {
            schedule: Schedule::Rfr,
            rooms: 6,
            kwh: 1,
            ..EMPTY
        },
    },
    Noted {
        note: "the most kWh",
        reading: Reading {
            schedule: Schedule::Gss,
            kwh: 9_999_999,
            ..EMPTY
        },
    },
    Noted {
        note: "one kWh too many",
        reading: Reading {
            schedule: Schedule::Gss,
            kwh: 10_000_000,
            ..EMPTY
        },
    },
    Noted {
        note: "too many off-peak kWh",
        reading: Reading {
            schedule: Schedule::TouP,
            off_peak_kwh: 10_000_000,
            contracted_load: 1_000,
            ..EMPTY
        },
    },
    Noted {
        note: "a limit holds where the field is not used",
        reading: Reading {
            schedule: Schedule::Grs,
            kw: 100_000,
            ..EMPTY
        },
    },
    Noted {
        note: "within the limit, but not used",
        reading: Reading {
            schedule: Schedule::Grs,
            kw: 99_999,
            ..EMPTY
        },
    },
    Noted {
        note: "too many kVA",
        reading: Reading {
            schedule: Schedule::Gst,
            kva: 100_000,
            ..EMPTY
        },
    },
    Noted {
        note: "too many off-peak kVA",
        reading: Reading {
            schedule: Schedule::TouT,
            off_peak_kva: 100_000,
            contracted_load: 1_000,
            ..EMPTY
        },
    },
    Noted {
        note: "too great a load",
        reading: Reading {
            schedule: Schedule::Gsp,
            contracted_load: 100_000,
            ..EMPTY
        },
    },
    Noted {
        note: "of two ranges the leftmost is told",
        reading: Reading {
            schedule: Schedule::Grs,
            kw: 100_000,
            kva: 100_000,
            ..EMPTY
        },
    },
    Noted {
        note: "rooms belong to the fixed rate",
        reading: Reading {
            schedule: Schedule::Grs,
            rooms: 1,
            kwh: 1,
            ..EMPTY
        },
    },
    Noted {
        note: "off-peak kWh belong to time of use",
        reading: Reading {
            schedule: Schedule::Gsp,
            off_peak_kwh: 1,
            ..EMPTY
        },
    },
    Noted {
        note: "kVA are not read here",
        reading: Reading {
            schedule: Schedule::Lp13,
            kw: 1,
            kva: 1,
            ..EMPTY
        },
    },
    Noted {
        note: "off-peak kVA belong to time of use",
        reading: Reading {
            schedule: Schedule::Gst,
            kva: 1,
            off_peak_kva: 1,
            ..EMPTY
        },
    },
    Noted {
        note: "a load is not contracted here",
        reading: Reading {
            schedule: Schedule::Gas,
            contracted_load: 1,
            ..EMPTY
        },
    },
    Noted {
        note: "a range comes before any unused field",
        reading: Reading {
            schedule: Schedule::Grs,
            rooms: 1,
            contracted_load: 100_000,
            ..EMPTY
        },
    },
    Noted {
        note: "an unused field comes before a contradiction",
        reading: Reading {
            schedule: Schedule::Gsp,
            kw: 11,
            kva: 10,
            off_peak_kva: 1,
            contracted_load: 10,
            ..EMPTY
        },
    },
    Noted {
        note: "as many kW as kVA",
        reading: Reading {
            schedule: Schedule::Gsp,
            kw: 10,
            kva: 10,
            contracted_load: 10,
            ..EMPTY
        },
    },
    Noted {
        note: "more kW than kVA",
        reading: Reading {
            schedule: Schedule::Gsp,
            kw: 11,
            kva: 10,
            contracted_load: 10,
            ..EMPTY
        },
    },
    Noted {
        note: "the most kWh in both periods",
        reading: Reading {
            schedule: Schedule::TouP,
            kwh: 5_000_000,
            off_peak_kwh: 4_999_999,
            contracted_load: 1_000,
            ..EMPTY
        },
    },
    Noted {
        note: "one kWh too many in both periods",
        reading: Reading {
            schedule: Schedule::TouP,
            kwh: 5_000_000,
            off_peak_kwh: 5_000_000,
            contracted_load: 1_000,
            ..EMPTY
        },
    },
    Noted {
        note: "too many kWh come before too small a load",
        reading: Reading {
            schedule: Schedule::TouT,
            kwh: 5_000_000,
            off_peak_kwh: 5_000_000,
            contracted_load: 999,
            ..EMPTY
        },
    },
    Noted {
        note: "one kVA below the least load",
        reading: Reading {
            schedule: Schedule::TouP,
            kwh: 1_000,
            off_peak_kwh: 2_000,
            kva: 100,
            off_peak_kva: 200,
            contracted_load: 999,
            ..EMPTY
        },
    },
];

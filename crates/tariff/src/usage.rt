// What a reading comes to once it is accepted: its rate, and numbers that are within their limits.
ghost use Rattle.std.specs.Prelude.{◌+◌, ◌≤◌};
ghost use Rattle.tariff.specs.Limits.{max_kwh, max_demand};

use crate::schedule::Rate;

// A type of its own for the four numbers below the greatest demand would be no plainer: each is taken out again wherever it is
// charged.
#[derive(Clone, Copy)]
pub(crate) struct Usage {
    pub(crate) rate: Rate,
    pub(crate) kwh: u32,
    pub(crate) off_peak_kwh: u32,
    pub(crate) kw: u32,
    pub(crate) kva: u32,
    pub(crate) off_peak_kva: u32,
    pub(crate) contracted_load: u32,
    ghost few: { kwh + off_peak_kwh ≤ max_kwh },
    ghost kw_low: { kw ≤ max_demand },
    ghost kva_low: { kva ≤ max_demand },
    ghost off_peak_kva_low: { off_peak_kva ≤ max_demand },
    ghost contracted: { contracted_load ≤ max_demand },
}

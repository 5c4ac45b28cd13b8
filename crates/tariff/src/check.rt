// Whether a reading may be rated: its numbers are in range, the unused ones 0, and none contradicts another.
ghost use Rattle.std.specs.Prelude.{◌≡◌, map, IfOk, Some};
ghost use Rattle.std.specs.List.{find};
ghost use Rattle.tariff.specs.Orders.{decision, verdict};
ghost use Rattle.tariff.specs.Schedules.{uses, rate_of, kw_within_kva, time_of_use};
ghost use Rattle.tariff.specs.Readings.{number_in, beyond, stray, limits, unused, contradictions, fields, rating_order};
ghost use Rattle.tariff.specs.Usages.{Holds, Within};

use crate::fault::{FIELDS, Field, RatingFault};
use crate::reading::Reading;
use crate::schedule::{Rate, Schedule};
use crate::usage::Usage;

// The greatest kWh of a month, of each period and of both together.
const MAX_KWH: u64 = 9_999_999;
// The greatest kW, kVA and contracted load.
const MAX_DEMAND: u64 = 99_999;
// The least contracted load for time of use, in kVA.
const MIN_TIME_OF_USE_LOAD: u64 = 1_000;

// The greatest number of each field, in the order of the call line. Rooms have theirs from the fixed rate.
const LIMITS: &[(Field, u64)] = &[
    (Field::Kwh, MAX_KWH),
    (Field::OffPeakKwh, MAX_KWH),
    (Field::Kw, MAX_DEMAND),
    (Field::Kva, MAX_DEMAND),
    (Field::OffPeakKva, MAX_DEMAND),
    (Field::ContractedLoad, MAX_DEMAND),
];

impl Schedule {
    fn uses(self, field: Field) -> bool
        ensures { result ≡ uses self field }
    {
        match field {
            Field::Rooms => matches!(self, Schedule::Rfr),
            Field::Kwh => true,
            Field::OffPeakKwh | Field::OffPeakKva => {
                matches!(self, Schedule::TouP | Schedule::TouT)
            }
            Field::Kw => matches!(self, Schedule::Gsp | Schedule::Gst | Schedule::Lp13),
            Field::Kva | Field::ContractedLoad => {
                matches!(
                    self,
                    Schedule::Gsp | Schedule::Gst | Schedule::TouP | Schedule::TouT
                )
            }
        }
    }

    // On these schedules the kW of a month are not above its kVA.
    fn kw_within_kva(self) -> bool
        ensures { result ≡ kw_within_kva self }
    {
        matches!(self, Schedule::Gsp | Schedule::Gst)
    }

    fn time_of_use(self) -> bool
        ensures { result ≡ time_of_use self }
    {
        matches!(self, Schedule::TouP | Schedule::TouT)
    }
}

impl Reading {
    // The number in a field.
    pub fn number(&self, field: Field) -> u64
        ensures { result ≡ number_in self.now field }
    {
        match field {
            Field::Rooms => self.rooms,
            Field::Kwh => self.kwh,
            Field::OffPeakKwh => self.off_peak_kwh,
            Field::Kw => self.kw,
            Field::Kva => self.kva,
            Field::OffPeakKva => self.off_peak_kva,
            Field::ContractedLoad => self.contracted_load,
        }
    }

    // The schedule does not use the field, and yet it is not 0.
    fn strays(&self, field: Field) -> bool
        ensures { result ≡ (stray self.now field).0 }
    {
        !self.schedule.uses(field) && self.number(field) != 0
    }

    // The first number that is too great.
    fn over_limit(&self) -> Option<(Field, u64)>
        ensures { result ≡ find (λ l. (beyond self.now l).0) limits }
    {
        LIMITS
            .iter()
            .copied()
            .find(|&(field, most)| self.number(field) > most)
    }

    // The first number that the schedule does not use, and that is not 0.
    fn stray(&self) -> Option<Field>
        ensures { result ≡ find (λ f. (stray self.now f).0) fields }
    {
        FIELDS.iter().copied().find(|field| self.strays(*field))
    }

    // The first number that is too great is refused.
    fn check_limits(&self) -> Result<(), RatingFault>
        ensures { verdict result ≡ decision (map (beyond self.now) limits) }
    {
        match self.over_limit() {
            Some((field, _)) => Err(RatingFault::OutOfRange(field)),
            None => Ok(()),
        }
    }

    // The first number that the schedule does not use, and that is not 0, is refused.
    fn check_unused(&self) -> Result<(), RatingFault>
        ensures { verdict result ≡ decision (unused self.now) }
    {
        match self.stray() {
            Some(field) => Err(RatingFault::Unused(field)),
            None => Ok(()),
        }
    }

    // Numbers that contradict each other are refused.
    fn check_agreement(&self) -> Result<(), RatingFault>
        ensures { verdict result ≡ decision (contradictions self.now) }
    {
        if self.schedule.kw_within_kva() && self.kw > self.kva {
            return Err(RatingFault::KwAboveKva);
        }
        if self.kwh.saturating_add(self.off_peak_kwh) > MAX_KWH {
            return Err(RatingFault::TooManyKwh);
        }
        if self.schedule.time_of_use() && self.contracted_load < MIN_TIME_OF_USE_LOAD {
            return Err(RatingFault::LoadTooSmall);
        }
        Ok(())
    }

    // The reading's rate and numbers, or the first refusal of rating's order.
    #[tactic(auto, using(crate::proofs::Readings::no_rate, crate::proofs::Readings::within))]
    pub(crate) fn usage(&self) -> Result<Usage, RatingFault>
        ensures verdict { verdict result ≡ decision (rating_order self.now) }
        ensures values { IfOk result (Holds self.now) }
    {
        let rate = self
            .schedule
            .rate(self.rooms)
            .ok_or(RatingFault::OutOfRange(Field::Rooms))?;
        self.check_limits()?;
        self.check_unused()?;
        self.check_agreement()?;
        Ok(self.narrowed(rate))
    }

    // The numbers as an accepted reading has them, in fewer bits. `as` is proved to lose nothing, and `try_from` would refuse
    // nothing.
    fn narrowed(&self, rate: Rate) -> Usage
        requires limits { Within self.now }
        requires rate { Some rate ≡ rate_of self.now.schedule self.now.rooms }
        ensures { Holds self.now result }
    {
        Usage {
            rate,
            kwh: self.kwh as u32,
            off_peak_kwh: self.off_peak_kwh as u32,
            kw: self.kw as u32,
            kva: self.kva as u32,
            off_peak_kva: self.off_peak_kva as u32,
            contracted_load: self.contracted_load as u32,
        }
    }
}

// Why a reading is not rated.
ghost use Rattle.std.specs.Prelude.{◌≡◌, Some};
ghost use Rattle.tariff.specs.Faults.{fault_refusal, field_number};
ghost use Rattle.tariff.specs.Texts.{field_text, fault_text};

use crate::refusal::{Layer, Refusal, Rule};
use std::error::Error;
use std::fmt;

// A number of a reading, in the order of the call line. Its place on the line is no discriminant: cast, a field is its place on
// the list of all, counted from 0.
#[derive(Clone, Copy, PartialEq, Eq, Hash, Debug)]
pub enum Field {
    Rooms,
    Kwh,
    OffPeakKwh,
    Kw,
    Kva,
    OffPeakKva,
    ContractedLoad,
}

// All of them, in the order of the call line: an array, since callers use its length.
pub const FIELDS: [Field; 7] = [
    Field::Rooms,
    Field::Kwh,
    Field::OffPeakKwh,
    Field::Kw,
    Field::Kva,
    Field::OffPeakKva,
    Field::ContractedLoad,
];

#[derive(Clone, Copy, PartialEq, Eq, Hash, Debug)]
pub enum RatingFault {
    // the number is beyond what any reading may have
    OutOfRange(Field),
    // the schedule does not use the field, and it is not 0
    Unused(Field),
    // more kW than kVA
    KwAboveKva,
    // both periods together have too many kWh
    TooManyKwh,
    // too small a contracted load for time of use
    LoadTooSmall,
}

impl Field {
    // The field's place on the call line, from 1.
    pub fn number(self) -> u8
        ensures { result ≡ field_number self }
    {
        match self {
            Field::Rooms => 4,
            Field::Kwh => 5,
            Field::OffPeakKwh => 6,
            Field::Kw => 7,
            Field::Kva => 8,
            Field::OffPeakKva => 9,
            Field::ContractedLoad => 10,
        }
    }
}

impl fmt::Display for Field {
    ghost output = { λ field. Some (field_text field) };

    fn fmt<W: fmt::Write>(&self, f: &mut fmt::Formatter<W>) -> fmt::Result {
        f.write_str(match self {
            Field::Rooms => "rooms",
            Field::Kwh => "kWh",
            Field::OffPeakKwh => "off-peak kWh",
            Field::Kw => "kW",
            Field::Kva => "kVA",
            Field::OffPeakKva => "off-peak kVA",
            Field::ContractedLoad => "contracted load",
        })
    }
}

impl fmt::Display for RatingFault {
    ghost output = { λ fault. Some (fault_text fault) };

    fn fmt<W: fmt::Write>(&self, f: &mut fmt::Formatter<W>) -> fmt::Result {
        match self {
            RatingFault::OutOfRange(field) => write!(f, "{field} out of range"),
            RatingFault::Unused(field) => write!(f, "{field} not used by this schedule, and not 0"),
            RatingFault::KwAboveKva => write!(f, "more kW than kVA"),
            RatingFault::TooManyKwh => write!(f, "too many kWh in both periods together"),
            RatingFault::LoadTooSmall => write!(f, "contracted load too small for time of use"),
        }
    }
}

impl Error for RatingFault {}

impl From<RatingFault> for Refusal {
    ghost from_gives = { λ fault refusal. refusal ≡ fault_refusal fault };

    fn from(fault: RatingFault) -> Refusal {
        let (rule, field) = match fault {
            RatingFault::OutOfRange(field) => (Rule::OutOfRange, field),
            RatingFault::Unused(field) => (Rule::Contradiction, field),
            RatingFault::KwAboveKva => (Rule::Contradiction, Field::Kw),
            RatingFault::TooManyKwh => (Rule::Contradiction, Field::OffPeakKwh),
            RatingFault::LoadTooSmall => (Rule::Contradiction, Field::ContractedLoad),
        };
        Refusal {
            // `as` reads the numbers that the enums give
            number: rule as u8,
            layer: Layer::Rating as u8,
            field: field.number(),
        }
    }
}

// Why a line is not read or not written.
ghost use Rattle.std.specs.Prelude.{◌≡◌, Some};
ghost use Rattle.fields.specs.Faults.{place_on_line, line_refusal};
ghost use Rattle.fields.specs.Texts.{line_field_text, line_fault_text};

use std::error::Error;
use std::fmt;
use tariff::fault::Field;
use tariff::refusal::{Layer, Refusal, Rule};

// A field of a call line that can be misspelt.
#[derive(Clone, Copy, PartialEq, Eq, Hash, Debug)]
pub enum LineField {
    Account,
    // a number of a reading
    Reading(Field),
    Cost,
    Forecast,
    Amount,
}

#[derive(Clone, Copy, PartialEq, Eq, Hash, Debug)]
pub enum LineFault {
    // too long, an unknown letter, or too few or too many fields
    Shape,
    Misspelt(LineField),
    UnknownSchedule,
    UnknownRider,
    // the line does not fit the buffer that it is to be written into
    BufferTooShort,
}

impl LineField {
    // The field's place on its call line, from 1. No discriminants: two fields have one place, and one brings its own.
    fn place(self) -> u8
        ensures { result ≡ place_on_line self }
    {
        match self {
            LineField::Account => 2,
            LineField::Reading(field) => field.number(),
            LineField::Cost => 3,
            LineField::Forecast => 4,
            LineField::Amount => 3,
        }
    }
}

impl fmt::Display for LineField {
    ghost output = { λ field. Some (line_field_text field) };

    fn fmt<W: fmt::Write>(&self, f: &mut fmt::Formatter<W>) -> fmt::Result {
        match self {
            LineField::Account => write!(f, "account"),
            LineField::Reading(field) => write!(f, "{field}"),
            LineField::Cost => write!(f, "cost"),
            LineField::Forecast => write!(f, "forecast"),
            LineField::Amount => write!(f, "amount"),
        }
    }
}

impl fmt::Display for LineFault {
    ghost output = { λ fault. Some (line_fault_text fault) };

    fn fmt<W: fmt::Write>(&self, f: &mut fmt::Formatter<W>) -> fmt::Result {
        match self {
            LineFault::Shape => write!(
                f,
                "a line too long, an unknown letter, or not its number of fields"
            ),
            LineFault::Misspelt(field) => write!(f, "{field} misspelt"),
            LineFault::UnknownSchedule => write!(f, "no such schedule"),
            LineFault::UnknownRider => write!(f, "no such rider"),
            LineFault::BufferTooShort => write!(f, "the buffer is too short"),
        }
    }
}

impl Error for LineFault {}

impl From<LineFault> for Refusal {
    ghost from_gives = { λ fault refusal. refusal ≡ line_refusal fault };

    fn from(fault: LineFault) -> Refusal {
        let (rule, layer, field) = match fault {
            LineFault::Shape => (Rule::Shape, Layer::Reader, 0),
            LineFault::Misspelt(field) => (Rule::Misspelt, Layer::Reader, field.place()),
            LineFault::UnknownSchedule => (Rule::Unknown, Layer::Reader, 3),
            LineFault::UnknownRider => (Rule::Unknown, Layer::Reader, 2),
            LineFault::BufferTooShort => (Rule::TooShort, Layer::Book, 0),
        };
        Refusal {
            // `as` reads the numbers that the enums give
            number: rule as u8,
            layer: layer as u8,
            field,
        }
    }
}

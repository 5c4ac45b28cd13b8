// A month's reading.
ghost use Rattle.std.specs.Prelude.{Some};
ghost use Rattle.tariff.specs.Texts.{reading_text};

use crate::fault::{FIELDS, Field};
use crate::schedule::Schedule;
use std::fmt;

// The numbers of a reading line, each as wide as a line can spell it. What a schedule does not use is 0.
#[derive(Clone, Copy, PartialEq, Eq, Hash, Debug)]
pub struct Reading {
    pub schedule: Schedule,
    pub rooms: u64,
    // on the time-of-use schedules those on peak
    pub kwh: u64,
    pub off_peak_kwh: u64,
    pub kw: u64,
    pub kva: u64,
    pub off_peak_kva: u64,
    pub contracted_load: u64,
}

// Every field with its number.
impl fmt::Display for Reading {
    ghost output = { λ reading. Some (reading_text reading) };

    fn fmt<W: fmt::Write>(&self, f: &mut fmt::Formatter<W>) -> fmt::Result {
        write!(f, "{} {}", Field::Rooms, self.rooms)?;
        for field in &FIELDS[1..] {
            write!(f, ", {field} {}", self.number(*field))?;
        }
        Ok(())
    }
}

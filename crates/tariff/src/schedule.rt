// The schedules of the rate book, and the rate of a bill.
ghost use Rattle.std.specs.Prelude.{◌≡◌, Some};
ghost use Rattle.tariff.specs.Schedules.{code_of, rate_of, rooms_or_refused};
ghost use Rattle.tariff.specs.Texts.{no_such_rooms_text};

use std::error::Error;
use std::fmt;

// A schedule, as a reading names it.
#[derive(Clone, Copy, PartialEq, Eq, Hash, Debug)]
pub enum Schedule {
    Grs,
    Lrs,
    Rh3,
    Rfr,
    Gss,
    Gsp,
    Gst,
    TouP,
    TouT,
    Gas,
    Lp13,
}

// All of them, in the order of the rate book: an array, since callers use its length.
pub const SCHEDULES: [Schedule; 11] = [
    Schedule::Grs,
    Schedule::Lrs,
    Schedule::Rh3,
    Schedule::Rfr,
    Schedule::Gss,
    Schedule::Gsp,
    Schedule::Gst,
    Schedule::TouP,
    Schedule::TouT,
    Schedule::Gas,
    Schedule::Lp13,
];

// The rooms of a dwelling on the fixed rate.
#[derive(Clone, Copy, PartialEq, Eq, Hash, Debug)]
pub enum Rooms {
    One,
    Two,
    Three,
    Four,
    Five,
}

// A number of rooms that the fixed rate does not have.
#[derive(Clone, Copy, PartialEq, Eq, Hash, Debug)]
pub struct NoSuchRooms(pub u64);

// The rate that a bill is made by. It is no schedule with rooms beside it: only the fixed rate has rooms, and always has them.
#[derive(Clone, Copy, PartialEq, Eq, Hash, Debug)]
pub enum Rate {
    Grs,
    Lrs,
    Rh3,
    Rfr(Rooms),
    Gss,
    Gsp,
    Gst,
    TouP,
    TouT,
    Gas,
    Lp13,
}

impl Schedule {
    // The schedule's code, as call lines spell it.
    pub fn code(self) -> &'static str
        ensures { result.now ≡ code_of self }
    {
        match self {
            Schedule::Grs => "GRS",
            Schedule::Lrs => "LRS",
            Schedule::Rh3 => "RH3",
            Schedule::Rfr => "RFR",
            Schedule::Gss => "GSS",
            Schedule::Gsp => "GSP",
            Schedule::Gst => "GST",
            Schedule::TouP => "TOU-P",
            Schedule::TouT => "TOU-T",
            Schedule::Gas => "GAS",
            Schedule::Lp13 => "LP-13",
        }
    }

    // The rate of a reading with so many rooms, which only the fixed rate looks at; none where it has not 1 to 5. Handing the
    // error on is no plainer: the reading's fault names the field, and not the rooms.
    pub(crate) fn rate(self, rooms: u64) -> Option<Rate>
        ensures { result ≡ rate_of self rooms }
    {
        let rate = match self {
            Schedule::Grs => Rate::Grs,
            Schedule::Lrs => Rate::Lrs,
            Schedule::Rh3 => Rate::Rh3,
            Schedule::Rfr => Rate::Rfr(Rooms::try_from(rooms).ok()?),
            Schedule::Gss => Rate::Gss,
            Schedule::Gsp => Rate::Gsp,
            Schedule::Gst => Rate::Gst,
            Schedule::TouP => Rate::TouP,
            Schedule::TouT => Rate::TouT,
            Schedule::Gas => Rate::Gas,
            Schedule::Lp13 => Rate::Lp13,
        };
        Some(rate)
    }
}

impl fmt::Display for Schedule {
    ghost output = { λ schedule. Some (code_of schedule) };

    fn fmt<W: fmt::Write>(&self, f: &mut fmt::Formatter<W>) -> fmt::Result {
        f.write_str(self.code())
    }
}

impl TryFrom<u64> for Rooms {
    type Error = NoSuchRooms;

    ghost try_from_gives = { λ count rooms. rooms ≡ rooms_or_refused count };

    fn try_from(count: u64) -> Result<Self, NoSuchRooms> {
        match count {
            1 => Ok(Rooms::One),
            2 => Ok(Rooms::Two),
            3 => Ok(Rooms::Three),
            4 => Ok(Rooms::Four),
            5 => Ok(Rooms::Five),
            _ => Err(NoSuchRooms(count)),
        }
    }
}

impl fmt::Display for NoSuchRooms {
    ghost output = { λ e. Some (no_such_rooms_text e) };

    fn fmt<W: fmt::Write>(&self, f: &mut fmt::Formatter<W>) -> fmt::Result {
        write!(f, "no fixed rate for {} rooms", self.0)
    }
}

impl Error for NoSuchRooms {}

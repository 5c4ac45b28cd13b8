// The riders of the house bank, which call lines and answers name. A rider is a charge besides the rate book's own that keeps a
// balance of cost allowed against money billed; a bank is the list of riders that a book of bills stands over.
ghost use Rattle.std.specs.Prelude.{◌≡◌, Some};
ghost use Rattle.fields.specs.Riders.{rider_code};

use crate::code::TextCoded;
use std::fmt;

#[derive(Clone, Copy, PartialEq, Eq, Hash, Debug)]
pub enum HouseRider {
    Fca,
    Ppca,
    Fos,
    Cilta,
    SubaHh,
    SubaNhh,
    Imp,
}

// All of them, in the order of the bank: an array, since callers use its length.
pub const HOUSE_RIDERS: [HouseRider; 7] = [
    HouseRider::Fca,
    HouseRider::Ppca,
    HouseRider::Fos,
    HouseRider::Cilta,
    HouseRider::SubaHh,
    HouseRider::SubaNhh,
    HouseRider::Imp,
];

impl HouseRider {
    // The rider's code, as lines spell it.
    pub fn code(self) -> &'static str
        ensures { result.now ≡ rider_code self }
    {
        match self {
            HouseRider::Fca => "FCA",
            HouseRider::Ppca => "PPCA",
            HouseRider::Fos => "FOS",
            HouseRider::Cilta => "CILTA",
            HouseRider::SubaHh => "SUBA-HH",
            HouseRider::SubaNhh => "SUBA-NHH",
            HouseRider::Imp => "IMP",
        }
    }
}

impl fmt::Display for HouseRider {
    ghost output = { λ rider. Some (rider_code rider) };

    fn fmt<W: fmt::Write>(&self, f: &mut fmt::Formatter<W>) -> fmt::Result {
        f.write_str(self.code())
    }
}

impl TextCoded for HouseRider {
    ghost spelling = { rider_code };

    fn code(self) -> &'static str {
        HouseRider::code(self)
    }
}

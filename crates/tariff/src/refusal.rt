// A refusal as it is told to the outside: which rule was broken, in which layer, at which field of the call line.
ghost use Rattle.std.specs.Prelude.{Some};
ghost use Rattle.tariff.specs.Texts.{refusal_text};

use std::fmt;

// The rules of the rate book.
#[derive(Clone, Copy, PartialEq, Eq, Hash, Debug)]
pub enum Rule {
    // a line's length, letter or number of fields
    Shape = 1,
    // a field that is spelt wrong
    Misspelt = 2,
    // a name that nothing has
    Unknown = 3,
    OutOfRange = 4,
    // numbers that contradict each other, or a field that is not used
    Contradiction = 5,
    // a list or a buffer that is too short
    TooShort = 6,
}

// The parts of the rate book that refuse.
#[derive(Clone, Copy, PartialEq, Eq, Hash, Debug)]
pub enum Layer {
    Reader = 1,
    Rating = 2,
    Book = 3,
}

// Field 0 means no single field. Numbers, and not `Rule` and `Layer`: a caller may answer any three, and a narrower type would
// forbid that.
#[derive(Clone, Copy, PartialEq, Eq, Hash, Debug)]
pub struct Refusal {
    pub number: u8,
    pub layer: u8,
    pub field: u8,
}

impl fmt::Display for Refusal {
    ghost output = { λ refusal. Some (refusal_text refusal) };

    fn fmt<W: fmt::Write>(&self, f: &mut fmt::Formatter<W>) -> fmt::Result {
        write!(f, "{},{},{}", self.number, self.layer, self.field)
    }
}

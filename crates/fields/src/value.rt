// What one field of a call line spells.
ghost use Rattle.std.specs.Prelude.{◌≡◌, ℕ, Bool, true, List, Some, Option, decimal, refl};
ghost use Rattle.std.specs.Fmt.{signed_decimal};
ghost use Rattle.fields.specs.Codes.{coded};
ghost use Rattle.fields.specs.Lines.{plain};
ghost use Rattle.fields.specs.Numbers.{natural_of, integer_of, spells_natural, spells_integer};
ghost use Rattle.fields.specs.Riders.{house_riders};
ghost use Rattle.fields.specs.ValueLaws.{natural_said, natural_again, integer_said, integer_again, coded_text, schedule_found, rider_found};
ghost use Rattle.tariff.specs.Schedules.{schedules};

use crate::code::{Coded, find};
use crate::number::{integer, natural};
use crate::rider::{HOUSE_RIDERS, HouseRider};
use tariff::schedule::{SCHEDULES, Schedule};

// A value that a field of its own spells, always by the same bytes.
pub trait FieldValue: Copy {
    // the value that bytes spell, if they spell one
    ghost value_of: { List ℕ → Option Self };

    // the bytes that spell a value
    ghost spelling: { Self → List ℕ };

    // a value that a field can spell
    ghost spellable: { Self → Bool };

    // What the field's bytes spell.
    fn read(bytes: &[u8]) -> Option<Self>
        ensures { result ≡ value_of bytes.now };

    // what was read is spelt by the bytes that it was read from
    ghost said: { (bs : List ℕ) (v : Self) → value_of bs ≡ Some v → (spelling v ≡ bs) × (spellable v ≡ true) };

    // what was spelt is read again, and has no comma
    ghost again: { (v : Self) → spellable v ≡ true → (value_of (spelling v) ≡ Some v) × (plain (spelling v) ≡ true) };
}

impl FieldValue for u64 {
    ghost value_of = { natural_of };

    ghost spelling = { decimal };

    ghost spellable = { spells_natural };

    ghost said = { natural_said };

    ghost again = { natural_again };

    fn read(bytes: &[u8]) -> Option<u64> {
        natural(bytes)
    }
}

impl FieldValue for i64 {
    ghost value_of = { integer_of };

    ghost spelling = { signed_decimal };

    ghost spellable = { spells_integer };

    ghost said = { integer_said };

    ghost again = { integer_again };

    fn read(bytes: &[u8]) -> Option<i64> {
        integer(bytes)
    }
}

// Something of which there is a list. On it every code is found as what it stands for.
pub trait Listed: Coded + 'static {
    ghost all: { List Self };

    fn all() -> &'static [Self]
        ensures { result.now ≡ all };

    // the first that has a thing's code is that thing, and the code has no comma
    ghost found: { (x : Self) → (coded Self.spelling all (Self.spelling x) ≡ Some x) × (plain (Self.spelling x) ≡ true) };
}

impl Listed for Schedule {
    ghost all = { schedules };

    ghost found = { schedule_found };

    fn all() -> &'static [Schedule] {
        &SCHEDULES
    }
}

impl Listed for HouseRider {
    ghost all = { house_riders };

    ghost found = { rider_found };

    fn all() -> &'static [HouseRider] {
        &HOUSE_RIDERS
    }
}

impl<T: Listed> FieldValue for T {
    ghost value_of = { coded T.Coded.spelling T.all };

    ghost spelling = { T.Coded.spelling };

    ghost spellable = { λ _. true };

    ghost said = { λ bs x e. (coded_text T.Coded.spelling T.all bs x e, refl) };

    ghost again = { λ x _. T.found x };

    fn read(bytes: &[u8]) -> Option<T> {
        find(T::all(), bytes)
    }
}

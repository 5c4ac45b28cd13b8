// Writing a call line.
ghost use Rattle.std.specs.Prelude.{◌≡◌, map, find, length, take, is_ok, IfOk, if◌then◌else◌, Ok};
ghost use Rattle.fields.specs.Buffers.{at_front};
ghost use Rattle.fields.specs.LineBuffers.{Extends};
ghost use Rattle.tariff.specs.Orders.{decision, verdict};
ghost use Rattle.tariff.specs.Readings.{fields, number_in};
ghost use Rattle.calls.specs.Limits.{max_line};
ghost use Rattle.calls.specs.Reads.{read_line};
ghost use Rattle.calls.specs.Records.{meaning};
ghost use Rattle.calls.specs.Writes.{letter, field_bytes, line_of, misspelt_number, record_misspellings, written};

use crate::call::{Call, MAX_LINE};
use crate::letter::Letter;
use fields::account::is_account;
use fields::buffer::copy_line;
use fields::code::Coded;
use fields::fault::{LineFault, LineField};
use fields::line::LineBuffer;
use fields::number::{spells_integer, spells_natural};
use tariff::fault::{FIELDS, Field};
use tariff::reading::Reading;

// The first number of a reading that no field can spell.
fn unspellable(reading: &Reading) -> Option<Field>
    ensures { result ≡ find (λ f. (misspelt_number reading.now f).0) fields }
{
    FIELDS
        .iter()
        .copied()
        .find(|field| !spells_natural(reading.number(*field)))
}

// The first number that no field can spell is refused.
fn check_numbers(reading: &Reading) -> Result<(), LineFault>
    ensures { verdict result ≡ decision (map (misspelt_number reading.now) fields) }
{
    match unspellable(reading) {
        Some(field) => Err(LineFault::Misspelt(LineField::Reading(field))),
        None => Ok(()),
    }
}

// The numbers of a reading, in the order of the line.
fn numbers(reading: &Reading) -> [u64; 7]
    ensures { result ≡ map (number_in reading.now) fields }
{
    FIELDS.map(|field| reading.number(field))
}

impl<'a> Call<'a> {
    fn letter(self) -> Letter
        ensures { result ≡ letter (meaning self.entry) }
    {
        match self {
            Call::Rate { .. } => Letter::Rate,
            Call::Post => Letter::Post,
            Call::Void => Letter::Void,
            Call::File { .. } => Letter::File,
            Call::Enter { .. } => Letter::Enter,
            Call::Report { .. } => Letter::Report,
        }
    }

    // The first field whose value no field can spell is refused.
    fn check_spelling(self) -> Result<(), LineFault>
        ensures { verdict result ≡ decision (record_misspellings (meaning self.entry)) }
    {
        match self {
            Call::Rate { account, reading } => {
                if !is_account(account) {
                    return Err(LineFault::Misspelt(LineField::Account));
                }
                check_numbers(&reading)
            }
            Call::File { cost, forecast, .. } => {
                if !spells_integer(cost.0) {
                    return Err(LineFault::Misspelt(LineField::Cost));
                }
                if !spells_natural(forecast) {
                    return Err(LineFault::Misspelt(LineField::Forecast));
                }
                Ok(())
            }
            Call::Enter { amount, .. } => {
                if !spells_integer(amount.0) {
                    return Err(LineFault::Misspelt(LineField::Amount));
                }
                Ok(())
            }
            Call::Post | Call::Void | Call::Report { .. } => Ok(()),
        }
    }

    // The call's fields, each after a comma.
    fn put_fields(self, buffer: &mut LineBuffer<MAX_LINE>)
        ensures { Extends max_line buffer.old buffer.new (field_bytes (meaning self.entry)) }
    {
        match self {
            Call::Rate { account, reading } => {
                buffer.field(account);
                buffer.field(reading.schedule.code_bytes());
                buffer.numbers(&numbers(&reading));
            }
            Call::Post | Call::Void => {}
            Call::File {
                rider,
                cost,
                forecast,
            } => {
                buffer.field(rider.code_bytes());
                buffer.number(cost.0);
                buffer.number(forecast);
            }
            Call::Enter { rider, amount } => {
                buffer.field(rider.code_bytes());
                buffer.number(amount.0);
            }
            Call::Report { rider } => buffer.field(rider.code_bytes()),
        }
    }

    // Writes the call's line, without a line feed, to the front of a buffer, and answers how many bytes it has. A refused call
    // leaves the buffer as it was.
    pub fn write(self, out: &mut [u8]) -> Result<usize, LineFault>
        ensures value { result ≡ written (meaning self.entry) (length out.old) }
        ensures after { out.new ≡ (if is_ok result then at_front (line_of (meaning self.entry)) out.old else out.old) }
        ensures back { IfOk result (λ n. read_line (take n out.new) ≡ Ok (meaning self.entry)) }
    {
        let mut buffer = LineBuffer::<MAX_LINE>::new();
        buffer.append(self.letter().code_bytes());
        self.put_fields(&mut buffer);
        let line = buffer.line().ok_or(LineFault::Shape)?;
        self.check_spelling()?;
        copy_line(line, out)
    }
}

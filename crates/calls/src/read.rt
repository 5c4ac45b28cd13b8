// Reading a call line.
ghost use Rattle.std.specs.Prelude.{◌≡◌, length, IfOk, ◌==◌, nat_lt};
ghost use Rattle.calls.specs.Limits.{max_line};
ghost use Rattle.calls.specs.Formats.{format, Placed};
ghost use Rattle.calls.specs.Records.{meaning};
ghost use Rattle.calls.specs.Splits.{split, later};
ghost use Rattle.calls.specs.Writes.{Rewrites};
ghost use Rattle.calls.specs.Reads.{meant, read_as, read_line};

use crate::call::{Call, MAX_LINE};
use crate::letter::Letter;
use crate::reader::{Reader, later_count};
use fields::fault::{LineFault, LineField};
use money::amount::MicroDollars;
use tariff::fault::Field;
use tariff::reading::Reading;

fn too_long(line: &[u8]) -> bool
    ensures { result ≡ nat_lt max_line (length line.now) }
{
    line.len() > MAX_LINE
}

// As many fields follow the letter as it has.
fn is_complete(line: &[u8], letter: Letter) -> bool
    ensures { result ≡ (length (later (split line.now)) == length (format letter)) }
{
    later_count(line) == letter.field_count()
}

// The fields after the letter R. That each is taken by a `let .. else`, here and below, is a rule of the project.
fn rate<'a>(reader: &mut Reader<'a>) -> Result<Call<'a>, LineFault>
    ensures { meant result ≡ read_as Letter.Rate reader.old }
{
    let Some(account) = reader.account() else {
        return Err(LineFault::Misspelt(LineField::Account));
    };
    let Some(schedule) = reader.value() else {
        return Err(LineFault::UnknownSchedule);
    };
    let Some(rooms) = reader.value() else {
        return Err(LineFault::Misspelt(LineField::Reading(Field::Rooms)));
    };
    let Some(kwh) = reader.value() else {
        return Err(LineFault::Misspelt(LineField::Reading(Field::Kwh)));
    };
    let Some(off_peak_kwh) = reader.value() else {
        return Err(LineFault::Misspelt(LineField::Reading(Field::OffPeakKwh)));
    };
    let Some(kw) = reader.value() else {
        return Err(LineFault::Misspelt(LineField::Reading(Field::Kw)));
    };
    let Some(kva) = reader.value() else {
        return Err(LineFault::Misspelt(LineField::Reading(Field::Kva)));
    };
    let Some(off_peak_kva) = reader.value() else {
        return Err(LineFault::Misspelt(LineField::Reading(Field::OffPeakKva)));
    };
    let Some(contracted_load) = reader.value() else {
        return Err(LineFault::Misspelt(LineField::Reading(Field::ContractedLoad)));
    };
    let reading = Reading {
        schedule,
        rooms,
        kwh,
        off_peak_kwh,
        kw,
        kva,
        off_peak_kva,
        contracted_load,
    };
    Ok(Call::Rate { account, reading })
}

// The fields after the letter F.
fn file<'a>(reader: &mut Reader<'a>) -> Result<Call<'a>, LineFault>
    ensures { meant result ≡ read_as Letter.File reader.old }
{
    let Some(rider) = reader.value() else {
        return Err(LineFault::UnknownRider);
    };
    let Some(cost) = reader.value() else {
        return Err(LineFault::Misspelt(LineField::Cost));
    };
    let Some(forecast) = reader.value() else {
        return Err(LineFault::Misspelt(LineField::Forecast));
    };
    Ok(Call::File {
        rider,
        cost: MicroDollars(cost),
        forecast,
    })
}

// The fields after the letter C.
fn enter<'a>(reader: &mut Reader<'a>) -> Result<Call<'a>, LineFault>
    ensures { meant result ≡ read_as Letter.Enter reader.old }
{
    let Some(rider) = reader.value() else {
        return Err(LineFault::UnknownRider);
    };
    let Some(amount) = reader.value() else {
        return Err(LineFault::Misspelt(LineField::Amount));
    };
    Ok(Call::Enter {
        rider,
        amount: MicroDollars(amount),
    })
}

// The field after the letter Q.
fn report<'a>(reader: &mut Reader<'a>) -> Result<Call<'a>, LineFault>
    ensures { meant result ≡ read_as Letter.Report reader.old }
{
    let Some(rider) = reader.value() else {
        return Err(LineFault::UnknownRider);
    };
    Ok(Call::Report { rider })
}

// A table of these functions by letter would be no plainer: a match is complete, and the two letters with no field need none.
fn read_fields<'a>(letter: Letter, reader: &mut Reader<'a>) -> Result<Call<'a>, LineFault>
    ensures { meant result ≡ read_as letter reader.old }
{
    match letter {
        Letter::Rate => rate(reader),
        Letter::Post => Ok(Call::Post),
        Letter::Void => Ok(Call::Void),
        Letter::File => file(reader),
        Letter::Enter => enter(reader),
        Letter::Report => report(reader),
    }
}

impl<'a> Call<'a> {
    // The call that a line says. The line comes without its line feed.
    pub fn read(line: &'a [u8]) -> Result<Self, LineFault>
        ensures value { meant result ≡ read_line line.now }
        ensures places { (l : Letter) → Placed 2 (format l) }
        ensures back { IfOk result (λ call. Rewrites line.now (meaning call)) }
    {
        if too_long(line) {
            return Err(LineFault::Shape);
        }
        let mut reader = Reader::new(line);
        let Some(letter) = reader.value::<Letter>() else {
            return Err(LineFault::Shape);
        };
        if !is_complete(line, letter) {
            return Err(LineFault::Shape);
        }
        read_fields(letter, &mut reader)
    }
}
